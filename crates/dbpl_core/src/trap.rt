use dbpl_base::Place;

/// A trap: its kind, by the numbers of the language, and the place of the phrase that trapped.
#[derive(Clone, Copy, Debug, PartialEq, Eq)]
pub struct Trap {
    pub kind: u8,
    pub place: Place,
}
