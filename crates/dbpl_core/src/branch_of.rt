use crate::CoreStmt;
use dbpl_base::List;
use dbpl_value::Range;

/// A branch of CASE, `a, b .. c: s`, with statements of the type `S`.
#[derive(Drop)]
pub struct CoreBranchOf<S> {
    /// The labels in the order of the text. A single label is the range from its number to itself.
    pub labels: List<Range>,
    pub statements: List<S>,
}

/// A branch as it stands in a program.
pub type CoreBranch = CoreBranchOf<CoreStmt>;
