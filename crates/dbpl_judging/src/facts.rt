use crate::Kind;
use dbpl_base::Place;

/// What the rules ask of a judged expression: all but its tree.
#[derive(Drop)]
pub struct Facts {
    /// The place of its first token, which is `(` where it stands in parentheses.
    pub place: Place,
    pub kind: Kind,
    /// The number, where the expression is a constant of an ordinal type or a whole one. A string of one character is
    /// such a constant, too: its number is the character's code.
    pub number: Option<i64>,
}
