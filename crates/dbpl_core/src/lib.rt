//! The resolved program: the tree of a program that the rules accept, in which each name is its declaration. What a program
//! means, how it is planned and which code is made of it is said of this tree.
//!
//! A name with `Of` is generic in the types by which the tree leads on: `CoreDesignatorOf<E>` in its expressions,
//! `CoreArmOf<E, S>` in expressions and statements. `CoreDesignator` is `CoreDesignatorOf<CoreExpr>`, and `CoreStmt` is
//! `CoreStmtOf<CoreExpr>`, whose statements lead back to itself whatever its expressions are.
//!
//! Beside the tree stands what a run has (`Cell`, `Reference`) and what it does, as events, until a trap stops it.
#![tactic(auto)]

mod argument_of;
mod arithmetic_operator;
mod arm_of;
mod branch_of;
mod call_of;
mod cell;
mod comparison;
mod control_of;
mod designator_of;
mod direction;
mod expr;
mod in_out_procedure;
mod laws;
mod logical_operator;
mod program;
mod reference;
mod reference_root;
mod relation;
mod root;
mod routine;
mod sign;
mod standard_function;
mod step_of;
mod stmt;
mod trap;
mod unit;
mod whole_host;

pub use argument_of::{CoreArgument, CoreArgumentOf};
pub use arithmetic_operator::ArithmeticOperator;
pub use arm_of::{CoreArm, CoreArmOf};
pub use branch_of::{CoreBranch, CoreBranchOf};
pub use call_of::{CoreCall, CoreCallOf};
pub use cell::Cell;
pub use comparison::Comparison;
pub use control_of::{CoreControl, CoreControlOf};
pub use designator_of::{CoreDesignator, CoreDesignatorOf};
pub use direction::Direction;
pub use expr::CoreExpr;
pub use in_out_procedure::InOutProcedure;
pub use laws::{effects_of_stores, events_join, phrases_by_levels};
pub use logical_operator::LogicalOperator;
pub use program::Program;
pub use reference::Reference;
pub use reference_root::ReferenceRoot;
pub use relation::Relation;
pub use root::Root;
pub use routine::Routine;
pub use sign::Sign;
pub use standard_function::StandardFunction;
pub use step_of::CoreStepOf;
pub use stmt::{CoreStmt, CoreStmtOf};
pub use trap::Trap;
pub use unit::CoreUnit;
pub use whole_host::WholeHost;
