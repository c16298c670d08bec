/// Whether a variable is counted up or down.
#[derive(Clone, Copy)]
pub enum Direction {
    /// `INC`
    Up,
    /// `DEC`
    Down,
}
