//! Expressions that are a designator without parentheses and nothing else.
ghost use Rattle.std.specs.Prelude.{◌≡◌};
ghost use Rattle.std.specs.Option.{option_copied};
ghost use Rattle.dbpl_rules_expr.specs.Expressions.{lone_designator as lone_of, lone_level};
ghost use Rattle.dbpl_tree.specs.declared.factor.Factor.{out-Factor};

use dbpl_tree::{Designator, Expr, Factor, is_factor};

fn designator_in(factor: &Factor) -> Option<&Designator>
    ensures { option_copied result ≡ lone_level (out-Factor factor.now) }
{
    match factor {
        Factor::Designator(d, None) => Some(d),
        _ => None,
    }
}

/// The designator without parentheses that the expression is, if it is one and nothing else.
pub(crate) fn lone_designator(e: &Expr) -> Option<&Designator>
    ensures { option_copied result ≡ lone_of e.now }
{
    if is_factor(e) {
        designator_in(&e.left.first.first)
    } else {
        None
    }
}
