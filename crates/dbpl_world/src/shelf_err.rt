// Why a file was not fetched.

#[derive(Clone, Copy, Debug, PartialEq, Eq)]
pub enum ShelfErr {
    Failed,
    TooLong,
    Memory,
}
