use crate::ReferenceRoot;
use dbpl_base::List;
use dbpl_value::Step;

/// A variable or a part of one during a run: where it begins, and the path from there. A designator makes it, once its
/// subscripts are evaluated; a VAR parameter has one as long as its call is open.
#[derive(Drop)]
pub struct Reference {
    pub root: ReferenceRoot,
    pub path: List<Step>,
}
