use dbpl_base::{Name, Shared};

/// Where a designator begins: made of its first name, or of a module's name and the name behind the dot, which is now the
/// declaration that it denotes.
///
/// A module variable is known by its module and its own name, as it is where other modules and a stored program name it.
/// A parameter or a local variable is known by its number, since the frame of a call has them in this order: the
/// parameters of the heading, then the local variables, from 0.
#[derive(Drop)]
pub enum Root {
    /// The variable of this module, by its own name.
    Global(Shared<Name>, Shared<Name>),
    /// The parameter or local variable with this number.
    Frame(u32),
}
