/// Where a declaration comes from.
#[derive(Clone, Copy, Debug, PartialEq, Eq)]
pub enum Origin {
    /// It was made in the text at whose level it stands.
    Declared,
    /// It was imported from another unit.
    Imported,
}
