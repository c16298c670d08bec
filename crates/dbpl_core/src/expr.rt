use crate::{
    ArithmeticOperator, Comparison, CoreCallOf, CoreDesignatorOf, LogicalOperator, Relation, Sign,
    StandardFunction, WholeHost,
};
use dbpl_base::{Boxed, List, Name, Place, Shared};
use dbpl_value::DbType;

/// An expression of an accepted program: each name is its declaration, each phrase has its type where one is asked for,
/// and each place is there that a trap may name.
///
/// The first place of a form is that of its first token in the text, and the other parts follow in the order of the text.
/// Parentheses are no form: what stands in them keeps its own places, and so its traps (a sign's at the sign, a call's at
/// its name). A form around them begins at `(`: a value that must fit a type, and an index, are placed there.
#[cycle(core_exprs)]
#[derive(Drop)]
pub enum CoreExpr {
    /// An ordinal: a number or character of the text, a constant by its name, an enumeration's constant, `MIN(T)` or
    /// `MAX(T)`.
    Number(Place, i64),
    /// A string, and the type of array as which it is used. There is none where it is only printed.
    Text(Place, Option<Shared<DbType>>, Shared<Name>),
    /// The value of a variable or of a part of one, and its type.
    Read(CoreDesignatorOf<CoreExpr>, Shared<DbType>),
    /// The value, where it lies in the ordinal type; else trap 3 at the place. It stands wherever a value must fit a
    /// type: in an assignment, an argument, a part of an aggregate, the expression of RETURN, the width of a number that
    /// is printed.
    Fitted(Place, Shared<DbType>, Boxed<CoreExpr>),
    /// `+e` or `-e`. A result outside the host is trap 1 at the sign; of a constant there is no host, and the result is
    /// exact.
    Signed(Place, Sign, Option<WholeHost>, Boxed<CoreExpr>),
    /// `e + f` and its like, with the place of the operator: trap 1 where the result isn't in the host, trap 2 where a
    /// divisor isn't positive. Of two constants there is no host, and the result is exact.
    Arithmetic(
        Place,
        Place,
        ArithmeticOperator,
        Option<WholeHost>,
        Boxed<CoreExpr>,
        Boxed<CoreExpr>,
    ),
    /// `e = f` and its like, with the place of the operator.
    Compared(Place, Place, Relation, Comparison, Boxed<CoreExpr>, Boxed<CoreExpr>),
    /// `p AND q` or `p OR q`.
    Logical(Place, LogicalOperator, Boxed<CoreExpr>, Boxed<CoreExpr>),
    /// `NOT p`
    Not(Place, Boxed<CoreExpr>),
    /// The call of a function, and the type of its result.
    Call(CoreCallOf<CoreExpr>, Shared<DbType>),
    /// The call of a standard function, with its argument.
    Standard(Place, StandardFunction, Boxed<CoreExpr>),
    /// `T{e, f, ..}`: a value of this record or array type, with its parts in their order.
    Packed(Place, Shared<DbType>, List<CoreExpr>),
}
