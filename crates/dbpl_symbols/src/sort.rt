use dbpl_base::{Name, Shared};

/// What kind of variable a name means.
#[derive(Drop)]
pub enum Sort {
    /// A variable of this module.
    Global(Shared<Name>),
    /// A relation variable of this database module, which the store keeps.
    Persistent(Shared<Name>),
    /// A local variable, by its number in the frame of a call. The parameters come first, so that no two have one number.
    Local(u32),
    /// A parameter, by its number in the frame of a call, from 0.
    Param(u32),
    /// A variable that goes over the records of a relation: of EACH, SOME, ALL, FOR EACH or a selector.
    Range,
    /// InOut's variable Done, which no program can assign.
    Done,
}
