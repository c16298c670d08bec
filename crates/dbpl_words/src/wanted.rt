/// What the words of a command ask for.
#[derive(Clone, Copy, Debug, PartialEq, Eq)]
pub enum Request<'a> {
    /// A run of this module alone.
    RunAlone(&'a str),
    /// An empty store of this name.
    Create(&'a str),
    /// A run of a database module and a program over a store, where `-` stands for no store.
    Run {
        store: &'a str,
        data: &'a str,
        program: &'a str,
    },
}
