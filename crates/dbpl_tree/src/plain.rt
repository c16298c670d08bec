//! Phrases that are one thing and nothing else.
ghost use Rattle.std.specs.Prelude.{◌≡◌};
ghost use Rattle.std.specs.Option.{option_copied};
ghost use Rattle.dbpl_tree.specs.Plain as spec;
ghost use Rattle.dbpl_tree.specs.declared.factor.Factor.{out-Factor};

use crate::{Arguments, Designator, Expr, Exprs, Factor, Ident};
use dbpl_base::Name;

/// Whether this is the name.
pub fn has_name(ident: &Ident, name: &[u8]) -> bool
    ensures { result ≡ spec.has_name name.now ident.now }
{
    ident.name.as_bytes() == name
}

/// Whether the designator is this name and nothing else.
pub fn is_name(designator: &Designator, name: &[u8]) -> bool
    ensures { result ≡ spec.is_name name.now designator.now }
{
    has_name(&designator.head, name) && matches!(designator.parts.as_slice(), [])
}

/// Whether the expression is one factor and nothing else.
pub fn is_factor(expr: &Expr) -> bool
    ensures { result ≡ spec.is_factor expr.now }
{
    let sum = &expr.left;
    expr.right.is_none()
        && sum.sign.is_none()
        && matches!(sum.others.as_slice(), [])
        && matches!(sum.first.others.as_slice(), [])
}

fn name_in(factor: &Factor) -> Option<&Ident>
    ensures { option_copied result ≡ spec.name_level (out-Factor factor.now) }
{
    match factor {
        Factor::Designator(designator, None) if matches!(designator.parts.as_slice(), []) => {
            Some(&designator.head)
        }
        _ => None,
    }
}

fn text_in(factor: &Factor) -> Option<&Name>
    ensures { option_copied result ≡ spec.text_level (out-Factor factor.now) }
{
    match factor {
        Factor::Text(_, text) => Some(text),
        _ => None,
    }
}

/// The name that the expression is, if it is one and nothing else.
pub fn name_of(expr: &Expr) -> Option<&Ident>
    ensures { option_copied result ≡ spec.name_of expr.now }
{
    if is_factor(expr) {
        name_in(&expr.left.first.first)
    } else {
        None
    }
}

/// The string that the expression is, if it is one and nothing else.
pub fn string_of(expr: &Expr) -> Option<&Name>
    ensures { option_copied result ≡ spec.string_of expr.now }
{
    if is_factor(expr) {
        text_in(&expr.left.first.first)
    } else {
        None
    }
}

/// The string that the expressions are, if they are one and nothing else.
pub fn only_string(exprs: &Exprs) -> Option<&Name>
    ensures { option_copied result ≡ spec.only_string exprs.now }
{
    match exprs.others.as_slice() {
        [] => string_of(exprs.first.get()),
        _ => None,
    }
}

/// The string in the parentheses of a call, if there is one and nothing else.
pub fn argument_of(arguments: &Arguments) -> Option<&Name>
    ensures { option_copied result ≡ spec.argument_of arguments.now }
{
    match &arguments.exprs {
        Some(exprs) => only_string(exprs),
        None => None,
    }
}
