use dbpl_base::{List, Shared};
use dbpl_core::{CoreExpr, CoreStepOf};
use dbpl_value::DbType;

/// Where the parts of a designator lead from its variable: a step for each, and the type of the last one's part.
#[derive(Drop)]
pub struct Reached {
    pub steps: List<CoreStepOf<CoreExpr>>,
    pub kind: Shared<DbType>,
}
