use dbpl_base::Name;

/// A statement of a module's body.
#[derive(Debug, PartialEq, Eq, Drop)]
pub enum Statement {
    /// `WriteLn`
    WriteLn,
    /// `WriteString` with its string, without the quotes
    WriteString(Name),
}
