use dbpl_base::Shared;
use dbpl_core::CoreDesignator;
use dbpl_value::DbType;

/// What a designator that breaks no rule denotes: a variable or a part of one.
#[derive(Drop)]
pub struct Denoted {
    pub designator: CoreDesignator,
    /// The type of the part.
    pub kind: Shared<DbType>,
    /// Whether a program may change it: it is neither Done nor the variable of a range.
    pub may_change: bool,
}
