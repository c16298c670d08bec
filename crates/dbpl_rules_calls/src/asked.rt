use dbpl_base::Shared;
use dbpl_symbols::StandardProcedure;
use dbpl_value::DbType;

/// What a place between the parentheses of a call asks for.
#[derive(Drop)]
pub enum Asked {
    /// A value for a parameter of this type.
    Value(Shared<DbType>),
    /// A variable for a VAR parameter of this type.
    Variable(Shared<DbType>),
    /// The value that this standard procedure takes: of VAL, INC and DEC the second argument.
    Standard(StandardProcedure),
    /// The variable that INC or DEC counts.
    Counted,
    /// The name of an ordinal type, as for MIN, MAX and VAL.
    Kind,
    /// What WriteString prints.
    Characters,
    /// Nothing that is known.
    Nothing,
}
