use crate::CoreUnit;
use dbpl_base::List;

/// An accepted program: made of the units of a command that keep every rule. What it means, how it is planned and which code
/// is made of it is said of this tree alone.
#[derive(Drop)]
pub struct Program {
    /// In the order of the command.
    pub units: List<CoreUnit>,
    /// The numbers of the units in the order in which their bodies run.
    pub order: List<u8>,
}
