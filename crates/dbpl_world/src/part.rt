// The two parts of a store.

#[derive(Clone, Copy, Debug, PartialEq, Eq)]
pub enum Part {
    Log,
    Pages,
}
