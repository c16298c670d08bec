use crate::Heading;
use dbpl_base::{Name, Shared};
use dbpl_symbols::Scope;

/// What stands around a phrase: all that its judgement depends on but the phrase itself.
#[derive(Drop)]
pub struct Setting {
    /// The declarations that stand before the phrase.
    pub scope: Scope,
    /// The name of the module that is judged.
    pub module: Shared<Name>,
    /// The heading of the routine that the phrase stands in, and none among the module's own declarations and in its
    /// body.
    pub heading: Option<Heading>,
    /// Whether a LOOP of that routine, or of the body, stands around the phrase.
    pub in_loop: bool,
    /// Whether relations may be written yet.
    pub has_relations: bool,
}
