/// How two operands are compared. Two spellings of one comparison are two variants.
#[derive(Clone, Copy, Debug, PartialEq, Eq)]
pub enum Relation {
    /// `=`
    Equal,
    /// `#`
    Hash,
    /// `<>`
    Unequal,
    /// `<`
    Less,
    /// `<=`
    LessEqual,
    /// `>`
    Greater,
    /// `>=`
    GreaterEqual,
}

/// What may stand before the first term.
#[derive(Clone, Copy, Debug, PartialEq, Eq)]
pub enum SignOperator {
    /// `+`
    Plus,
    /// `-`
    Minus,
}

/// What stands between two terms.
#[derive(Clone, Copy, Debug, PartialEq, Eq)]
pub enum AddingOperator {
    /// `+`
    Plus,
    /// `-`
    Minus,
    /// `OR`
    Or,
}

/// What stands between two factors.
#[derive(Clone, Copy, Debug, PartialEq, Eq)]
pub enum MultiplyingOperator {
    /// `*`
    Times,
    /// `DIV`
    Div,
    /// `MOD`
    Mod,
    /// `AND`
    And,
    /// `&`
    Ampersand,
}

/// What negates a factor.
#[derive(Clone, Copy, Debug, PartialEq, Eq)]
pub enum NotOperator {
    /// `NOT`
    Not,
    /// `~`
    Tilde,
}

/// For how many records of a range a predicate is to hold.
#[derive(Clone, Copy, Debug, PartialEq, Eq)]
pub enum Quantifier {
    /// `SOME`
    Exists,
    /// `ALL`
    ForAll,
}

/// How a statement changes its target.
#[derive(Clone, Copy, Debug, PartialEq, Eq)]
pub enum ChangeOperator {
    /// `:=`
    Becomes,
    /// `:+`
    Add,
    /// `:-`
    Remove,
    /// `:&`
    Replace,
}
