// What an opening gives.

use crate::Log;

#[derive(Debug, Drop)]
pub struct Opened {
    pub log: Log,
    /// The bytes of each record, the oldest first.
    pub records: Vec<Vec<u8>>,
}
