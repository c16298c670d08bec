/// Why a store isn't opened.
#[derive(Clone, Copy, Debug, PartialEq, Eq)]
pub enum StoreErr {
    /// The log doesn't begin with an open head.
    NotStore,
    Disk,
    /// The store is damaged at this page. In one log that is page 0: an open record doesn't fit or spells no database,
    /// or the log ends before the next gate.
    Damaged(u32),
    Memory,
}
