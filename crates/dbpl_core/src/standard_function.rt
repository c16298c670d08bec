use dbpl_base::Shared;
use dbpl_value::DbType;

/// A standard function of one argument. MIN and MAX of a type are numbers and no calls.
#[derive(Drop)]
pub enum StandardFunction {
    /// `ABS(x)`: trap 1 at the least INTEGER.
    Abs,
    /// `ODD(x)`
    Odd,
    /// `CAP(c)`
    Cap,
    /// `CHR(x)`: trap 3 where no character has the code.
    Chr,
    /// `ORD(x)`
    Ord,
    /// `VAL(T, x)` with its type: trap 3 where the number isn't in it.
    Val(Shared<DbType>),
}
