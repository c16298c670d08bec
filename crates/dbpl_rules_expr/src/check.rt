//! `check_expr`: an expression, or its least breach; and the last step of every check.
ghost use Rattle.std.specs.Prelude.{◌≡◌, ◌≢◌, None};
ghost use Rattle.dbpl_rules_expr.specs.Checked.{Answers, IsChecked, checked_expr};
ghost use Rattle.dbpl_symbols.specs.Known.{IsKnown};

use crate::RuleErr;
use crate::expressions::judge_expr;
use dbpl_core::CoreExpr;
use dbpl_judging::{Checker, Typed};
use dbpl_tree::Expr;
use std::alloc::Global;

/// What was found, or the least breach that was noted: one of both is there.
pub fn answered<A: Drop>(checker: &Checker, found: Option<A>) -> Result<A, RuleErr>
    requires { checker.now.least ≡ None → found ≢ None }
    ensures { Answers checker.now.least found result }
{
    match (checker.least(), found) {
        (Some(breach), _) => Err(RuleErr::Breach(breach)),
        (None, Some(found)) => Ok(found),
        (None, None) => unreachable!(),
    }
}

/// The expression as it goes on from the rules, or its least breach; the scope is then as before. Want of memory is free, and
/// nothing is said of the checker after it.
pub fn check_expr(alloc: Global, checker: &mut Checker, e: &Expr) -> Result<CoreExpr, RuleErr>
    requires known { IsKnown checker.old.setting.scope }
    requires first { checker.old.least ≡ None }
    ensures { IsChecked (checked_expr checker.old.setting e.now) checker.old result checker.new }
{
    let found = judge_expr(alloc, checker, e)?;
    let e = answered(checker, found)?;
    Ok(tree_of(e))
}

fn tree_of(e: Typed) -> CoreExpr
    ensures { result ≡ e.tree }
{
    let Typed { facts: _, tree } = e;
    tree.into_inner()
}
