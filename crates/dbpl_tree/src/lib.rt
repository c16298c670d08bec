//! The syntax tree of a text: one type for each production of the grammar, with its parts in the order of the text.
//! A name with `Of` is generic in the type by which the grammar leads back: `ExprOf<F>` in its factors, `StatementsOf<S>`
//! in its statements. `Expr` is `ExprOf<Factor>`, `Statements` is `StatementsOf<Statement>`.
#![tactic(auto)]

mod aggregate;
mod boxed_arguments;
mod boxed_expr;
mod boxed_range;
mod case;
mod decl;
mod designator;
mod each;
mod element;
mod expr;
mod factor;
mod heading;
mod ident;
mod operators;
mod plain;
mod range;
mod simple;
mod statement;
mod statements;
mod term;
mod type_tree;
mod unit;
mod widths;

pub use aggregate::Aggregate;
pub use boxed_arguments::BoxedArguments;
pub use boxed_expr::BoxedExpr;
pub use boxed_range::BoxedRange;
pub use case::{Case, CaseOf, Label};
pub use decl::{Common, ConstDecl, Decl, DefinitionItem, PlainDecl, Routine, TypeDecl, VarDecl};
pub use designator::{Arguments, ArgumentsOf, Designator, DesignatorOf, Part, PartOf};
pub use each::Each;
pub use element::Element;
pub use expr::{Compared, ComparedOf, Expr, ExprOf, Exprs, ExprsOf};
pub use factor::Factor;
pub use heading::{Heading, Params, RoutineWord, Section, Signature};
pub use ident::{Ident, Idents, Qual};
pub use operators::{
    AddingOperator, ChangeOperator, MultiplyingOperator, NotOperator, Quantifier, Relation,
    SignOperator,
};
pub use plain::{argument_of, has_name, is_factor, is_name, name_of, only_string, string_of};
pub use range::Range;
pub use simple::{Added, AddedOf, Simple, SimpleOf};
pub use statement::{Elsif, ElsifOf, Statement};
pub use statements::{Statements, StatementsOf};
pub use term::{Multiplied, MultipliedOf, Term, TermOf};
pub use type_tree::{Fields, FieldsOf, TypeTree};
pub use unit::{DataUnit, DefinitionUnit, Import, Program, Unit};
