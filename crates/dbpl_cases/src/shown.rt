//! How a resolved expression is written in an answer: each form by its word, behind `@` its places, and in parentheses
//! its parts.
use crate::notation::{show_name, show_place, show_range, show_type};
use dbpl_base::{Memory, Name, Place, Shared};
use dbpl_core::{
    ArithmeticOperator, Comparison, CoreArgument, CoreArgumentOf, CoreCall, CoreDesignator,
    CoreExpr, CoreStepOf, LogicalOperator, Relation, Root, Sign, StandardFunction, WholeHost,
};
use dbpl_value::DbType;
use std::fmt::Write;

/// The word of a form, and its place.
fn show_word(out: &mut String, word: &str, place: Place) -> Result<(), Memory> {
    out.push_str(word)?;
    out.push_str("@")?;
    show_place(out, place)
}

/// The same of a form with an operator, which has a place of its own.
fn show_operator(
    out: &mut String,
    word: &str,
    place: Place,
    operator: Place,
) -> Result<(), Memory> {
    show_word(out, word, operator)?;
    out.push_str(" from ")?;
    show_place(out, place)
}

fn arithmetic_word(operator: ArithmeticOperator) -> &'static str {
    match operator {
        ArithmeticOperator::Plus => "plus",
        ArithmeticOperator::Minus => "minus",
        ArithmeticOperator::Times => "times",
        ArithmeticOperator::Div => "div",
        ArithmeticOperator::Mod => "mod",
    }
}

fn relation_word(relation: Relation) -> &'static str {
    match relation {
        Relation::Equal => "equal",
        Relation::Unequal => "unequal",
        Relation::Less => "less",
        Relation::LessEqual => "least",
        Relation::Greater => "greater",
        Relation::GreaterEqual => "most",
    }
}

fn comparison_word(comparison: Comparison) -> &'static str {
    match comparison {
        Comparison::Numbers => "numbers",
        Comparison::Values => "values",
    }
}

fn logical_word(operator: LogicalOperator) -> &'static str {
    match operator {
        LogicalOperator::And => "and",
        LogicalOperator::Or => "or",
    }
}

fn sign_word(sign: Sign) -> &'static str {
    match sign {
        Sign::Plus => "positive",
        Sign::Minus => "negative",
    }
}

fn host_word(host: Option<WholeHost>) -> &'static str {
    match host {
        Some(WholeHost::Integer) => "INTEGER",
        Some(WholeHost::Cardinal) => "CARDINAL",
        None => "exact",
    }
}

fn function_word(function: &StandardFunction) -> &'static str {
    match function {
        StandardFunction::Abs => "ABS",
        StandardFunction::Odd => "ODD",
        StandardFunction::Cap => "CAP",
        StandardFunction::Chr => "CHR",
        StandardFunction::Ord => "ORD",
        StandardFunction::Val(_) => "VAL",
    }
}

/// The type that VAL has in front.
fn show_function_type(out: &mut String, function: &StandardFunction) -> Result<(), Memory> {
    if let StandardFunction::Val(t) = function {
        show_type(out, t.get())?;
        out.push_str(", ")?;
    }
    Ok(())
}

fn show_text(
    out: &mut String,
    place: Place,
    t: Option<&Shared<DbType>>,
    text: &Name,
) -> Result<(), Memory> {
    show_word(out, "text", place)?;
    out.push_str("(")?;
    show_name(out, text)?;
    if let Some(t) = t {
        out.push_str(", ")?;
        show_type(out, t.get())?;
    }
    out.push_str(")")?;
    Ok(())
}

fn show_root(out: &mut String, root: &Root) -> Result<(), Memory> {
    match root {
        Root::Global(module, name) => {
            show_name(out, module.get())?;
            out.push_str(".")?;
            show_name(out, name.get())
        }
        Root::Frame(number) => {
            write!(out, "frame {number}")?;
            Ok(())
        }
    }
}

/// An expression.
#[cycle(shown_trees)]
pub(crate) fn show_expr(out: &mut String, e: &CoreExpr) -> Result<(), Memory> {
    match e {
        CoreExpr::Number(place, n) => {
            write!(out, "{n}@")?;
            show_place(out, *place)
        }
        CoreExpr::Text(place, t, text) => show_text(out, *place, t.as_ref(), text.get()),
        CoreExpr::Read(d, t) => {
            out.push_str("read(")?;
            show_designator(out, d)?;
            out.push_str(", ")?;
            show_type(out, t.get())?;
            closed(out)
        }
        CoreExpr::Fitted(place, t, e) => {
            show_word(out, "fit", *place)?;
            out.push_str("(")?;
            show_type(out, t.get())?;
            show_operand(out, ", ", e.get())?;
            closed(out)
        }
        CoreExpr::Signed(place, sign, host, e) => {
            show_word(out, sign_word(*sign), *place)?;
            out.push_str("(")?;
            out.push_str(host_word(*host))?;
            show_operand(out, ", ", e.get())?;
            closed(out)
        }
        CoreExpr::Arithmetic(place, operator_place, operator, host, left, right) => {
            show_operator(out, arithmetic_word(*operator), *place, *operator_place)?;
            out.push_str("(")?;
            out.push_str(host_word(*host))?;
            show_operand(out, ", ", left.get())?;
            show_operand(out, ", ", right.get())?;
            closed(out)
        }
        CoreExpr::Compared(place, operator_place, relation, comparison, left, right) => {
            show_operator(out, relation_word(*relation), *place, *operator_place)?;
            out.push_str("(")?;
            out.push_str(comparison_word(*comparison))?;
            show_operand(out, ", ", left.get())?;
            show_operand(out, ", ", right.get())?;
            closed(out)
        }
        CoreExpr::Logical(place, operator, left, right) => {
            show_word(out, logical_word(*operator), *place)?;
            show_operand(out, "(", left.get())?;
            show_operand(out, ", ", right.get())?;
            closed(out)
        }
        CoreExpr::Not(place, e) => {
            show_word(out, "not", *place)?;
            show_operand(out, "(", e.get())?;
            closed(out)
        }
        CoreExpr::Call(call, t) => {
            show_call(out, call)?;
            out.push_str(": ")?;
            show_type(out, t.get())
        }
        CoreExpr::Standard(place, function, e) => {
            show_word(out, function_word(function), *place)?;
            out.push_str("(")?;
            show_function_type(out, function)?;
            show_operand(out, "", e.get())?;
            closed(out)
        }
        CoreExpr::Packed(place, t, parts) => {
            show_word(out, "packed", *place)?;
            out.push_str("(")?;
            show_type(out, t.get())?;
            show_parts(out, parts.as_slice())?;
            closed(out)
        }
    }
}

fn closed(out: &mut String) -> Result<(), Memory> {
    out.push_str(")")?;
    Ok(())
}

/// An expression behind what stands between it and the part before it.
#[cycle(shown_trees)]
fn show_operand(out: &mut String, before: &str, e: &CoreExpr) -> Result<(), Memory> {
    out.push_str(before)?;
    show_expr(out, e)
}

#[cycle(shown_trees)]
fn show_parts(out: &mut String, parts: &[CoreExpr]) -> Result<(), Memory> {
    for part in parts {
        show_operand(out, ", ", part)?;
    }
    Ok(())
}

#[cycle(shown_trees)]
fn show_designator(out: &mut String, d: &CoreDesignator) -> Result<(), Memory> {
    show_root(out, &d.root)?;
    out.push_str("@")?;
    show_place(out, d.place)?;
    out.push_str(" of ")?;
    show_type(out, d.root_kind.get())?;
    show_steps(out, d.steps.as_slice())
}

#[cycle(shown_trees)]
fn show_steps(out: &mut String, steps: &[CoreStepOf<CoreExpr>]) -> Result<(), Memory> {
    for step in steps {
        show_step(out, step)?;
    }
    Ok(())
}

#[cycle(shown_trees)]
fn show_step(out: &mut String, step: &CoreStepOf<CoreExpr>) -> Result<(), Memory> {
    match step {
        CoreStepOf::Field(number) => {
            write!(out, " .{number}")?;
            Ok(())
        }
        CoreStepOf::Index(place, range, e) => {
            out.push_str(" [")?;
            show_range(out, *range)?;
            out.push_str("@")?;
            show_place(out, *place)?;
            show_operand(out, ", ", e)?;
            out.push_str("]")?;
            Ok(())
        }
    }
}

#[cycle(shown_trees)]
fn show_call(out: &mut String, call: &CoreCall) -> Result<(), Memory> {
    show_word(out, "call", call.place)?;
    out.push_str(" ")?;
    show_name(out, call.owner.get())?;
    out.push_str(".")?;
    show_name(out, &call.head.get().name)?;
    out.push_str("(")?;
    show_arguments(out, call.arguments.as_slice())?;
    closed(out)
}

#[cycle(shown_trees)]
fn show_arguments(out: &mut String, arguments: &[CoreArgument]) -> Result<(), Memory> {
    let mut first = true;
    for argument in arguments {
        separate(out, first)?;
        show_argument(out, argument)?;
        first = false;
    }
    Ok(())
}

/// A comma, but none before the first.
fn separate(out: &mut String, first: bool) -> Result<(), Memory> {
    if !first {
        out.push_str(", ")?;
    }
    Ok(())
}

#[cycle(shown_trees)]
fn show_argument(out: &mut String, argument: &CoreArgument) -> Result<(), Memory> {
    match argument {
        CoreArgumentOf::Value(e) => show_expr(out, e),
        CoreArgumentOf::Variable(d) => {
            out.push_str("var ")?;
            show_designator(out, d)
        }
    }
}
