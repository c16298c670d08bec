use dbpl_base::Name;

/// A statement of the module's body.
#[derive(Debug, PartialEq, Eq, Drop)]
pub enum Action {
    /// A call of the transaction
    Transact,
    /// `WriteLn`
    WriteLn,
    /// `WriteString` with its string, without the quotes
    WriteString(Name),
}
