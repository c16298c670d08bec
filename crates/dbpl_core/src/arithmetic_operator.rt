/// What stands between two numbers and makes a number of them.
#[derive(Clone, Copy)]
pub enum ArithmeticOperator {
    /// `+`
    Plus,
    /// `-`
    Minus,
    /// `*`
    Times,
    /// `DIV`, the floor of the quotient
    Div,
    /// `MOD`, what is left of the floor
    Mod,
}
