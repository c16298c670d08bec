//! What a declaration is where its name stands.
ghost use Rattle.std.specs.Prelude.{◌≡◌, IfOk, None, Ok};
ghost use Rattle.dbpl_judging.specs.Judgements.{of};
ghost use Rattle.dbpl_judging.specs.Judging.{Judges};
ghost use Rattle.dbpl_rules_expr.specs.Aggregates.{brace as judged_brace, brace_named as judged_type};
ghost use Rattle.dbpl_rules_expr.specs.Calls.{callee as judged_callee};
ghost use Rattle.dbpl_rules_expr.specs.Designators.{constant_level, constant_named as constant_of_name, is_kind_or_module as is_kind_or_module_name, is_kind_or_module_level, kind as judged_kind};
ghost use Rattle.dbpl_rules_expr.specs.Names.{named};
ghost use Rattle.dbpl_symbols.specs.declared.decl.Decl.{out-Decl};

use crate::names::{found_named, qual_named, stands_alone};
use crate::rules::is_relation;
use dbpl_base::{Memory, Place, Shared};
use dbpl_judging::{Checker, Setting, Typed};
use dbpl_rules_operators::{instead, kept_where, ordinal_constant, text_constant, whole_constant};
use dbpl_symbols::Decl;
use dbpl_tree::{Designator, Qual};
use dbpl_value::DbType;
use std::alloc::Global;

fn constant(alloc: Global, place: Place, decl: &Decl) -> Result<Option<Typed>, Memory>
    ensures { IfOk result (λ e. e ≡ constant_level place (out-Decl decl.now)) }
{
    match decl {
        Decl::Num(t, n) => Ok(Some(ordinal_constant(alloc, t.share()?, place, *n)?)),
        Decl::Whole(n) => Ok(Some(whole_constant(alloc, place, *n)?)),
        Decl::Text(text) => Ok(Some(text_constant(alloc, place, text.share()?)?)),
        _ => Ok(None),
    }
}

/// The constant that the name of a designator alone is, if it is one.
pub(crate) fn constant_named(
    alloc: Global,
    setting: &Setting,
    d: &Designator,
) -> Result<Option<Typed>, Memory>
    ensures { IfOk result (λ e. e ≡ constant_of_name d.now.head.place (named setting.now d.now.head d.now.parts)) }
{
    match found_named(setting, d) {
        Some(decl) if stands_alone(setting, d) => constant(alloc, d.place(), decl),
        _ => Ok(None),
    }
}

fn is_kind_or_unit(decl: &Decl) -> bool
    ensures { result ≡ is_kind_or_module_level (out-Decl decl.now) }
{
    matches!(decl, Decl::Kind(_) | Decl::Unit(_))
}

/// Whether the designator is the name of a type or a module alone.
pub(crate) fn is_kind_or_module(setting: &Setting, d: &Designator) -> bool
    ensures { result ≡ is_kind_or_module_name (named setting.now d.now.head d.now.parts) }
{
    match found_named(setting, d) {
        Some(decl) => stands_alone(setting, d) && is_kind_or_unit(decl),
        None => false,
    }
}

/// A type.
pub(crate) fn kind(
    checker: &mut Checker,
    place: Place,
    decl: &Option<Decl>,
) -> Result<Option<Shared<DbType>>, Memory>
    ensures { Judges (of (judged_kind place) decl.now) result checker.old checker.new }
{
    match decl {
        Some(Decl::Kind(t)) => Ok(Some(t.share()?)),
        Some(_) => {
            checker.breaks(12, place);
            Ok(None)
        }
        None => Ok(None),
    }
}

/// The type before a brace.
pub(crate) fn brace(
    checker: &mut Checker,
    place: Place,
    decl: &Option<Decl>,
) -> Result<Option<Shared<DbType>>, Memory>
    ensures { Judges (of (judged_brace place) decl.now) result checker.old checker.new }
{
    match decl {
        Some(Decl::Kind(t)) if is_relation(t.get()) => {
            checker.unbuilt();
            Ok(None)
        }
        Some(Decl::Kind(t)) => Ok(Some(t.share()?)),
        Some(Decl::Constructor(_, _, _, _)) => {
            checker.unbuilt();
            Ok(None)
        }
        Some(_) => {
            checker.breaks(12, place);
            Ok(None)
        }
        None => Ok(None),
    }
}

/// What is called.
pub(crate) fn callee(checker: &mut Checker, place: Place, decl: Option<Decl>) -> Option<Decl>
    ensures { Judges (of (judged_callee place) decl) (Ok result) checker.old checker.new }
{
    let decl = decl?;
    let is_routine = matches!(
        decl,
        Decl::Routine(_, _) | Decl::Standard(_) | Decl::InOut(_, _)
    );
    if !is_routine {
        checker.breaks(12, place);
    }
    kept_where(is_routine, decl)
}

/// The type that stands before a brace.
pub(crate) fn brace_named(checker: &mut Checker, q: &Qual) -> Result<Option<Shared<DbType>>, Memory>
    ensures { Judges (judged_type checker.old.setting q.now) result checker.old checker.new }
{
    let decl = qual_named(checker, q)?;
    let t = brace(checker, q.place(), &decl);
    instead(decl, t)
}
