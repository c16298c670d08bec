/// How two values are compared, whatever the spelling.
#[derive(Clone, Copy)]
pub enum Relation {
    /// `=`
    Equal,
    /// `#` and `<>`
    Unequal,
    /// `<`
    Less,
    /// `<=`
    LessEqual,
    /// `>`
    Greater,
    /// `>=`
    GreaterEqual,
}
