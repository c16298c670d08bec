//! Variables as a whole.
ghost use Rattle.std.specs.Prelude.{◌≡◌, IfOk};
ghost use Rattle.dbpl_judging.specs.Judgements.{of};
ghost use Rattle.dbpl_judging.specs.Judging.{Judges};
ghost use Rattle.dbpl_rules_expr.specs.Designators.{may_change as sort_may_change, root_of as root_by, rooted as judged_root, variable as judged_variable, variable_named as judged_name, whole_variable as variable_of};
ghost use Rattle.dbpl_rules_expr.specs.Names.{named};

use crate::names::{declared, second_word, word_named};
use dbpl_base::{List, Memory, Name, Place, Shared, name_of};
use dbpl_core::{CoreDesignatorOf, Root};
use dbpl_judging::{Checker, pair};
use dbpl_rules_calls::Denoted;
use dbpl_rules_operators::instead;
use dbpl_symbols::{Decl, Sort};
use dbpl_tree::Designator;
use dbpl_value::DbType;
use std::alloc::Global;

fn shared_name(alloc: Global, name: &[u8]) -> Result<Shared<Name>, Memory>
    ensures { IfOk result (λ shared. shared ≡ name.now) }
{
    Shared::new(alloc, name_of(alloc, name)?)
}

fn root_of(alloc: Global, name: &Name, sort: &Sort) -> Result<Option<Root>, Memory>
    ensures { IfOk result (λ root. root ≡ root_by name.now sort.now) }
{
    match sort {
        Sort::Global(owner) => {
            let name = shared_name(alloc, name.as_bytes())?;
            Ok(Some(Root::Global(owner.share()?, name)))
        }
        Sort::Local(number) | Sort::Param(number) => Ok(Some(Root::Frame(*number))),
        Sort::Done => {
            let module = shared_name(alloc, b"InOut")?;
            Ok(Some(Root::Global(module, shared_name(alloc, b"Done")?)))
        }
        Sort::Persistent(_) | Sort::Range => Ok(None),
    }
}

fn may_change(sort: &Sort) -> bool
    ensures { result ≡ sort_may_change sort.now }
{
    !matches!(sort, Sort::Done | Sort::Range)
}

fn whole_variable(
    alloc: Global,
    place: Place,
    root: Root,
    t: &Shared<DbType>,
    may_change: bool,
) -> Result<Denoted, Memory>
    ensures { IfOk result (λ denoted. denoted ≡ variable_of place root t.now may_change) }
{
    let (root, root_kind) = pair(root, t.share())?;
    let ((root, root_kind), kind) = pair((root, root_kind), t.share())?;
    let designator = CoreDesignatorOf {
        place,
        root,
        root_kind,
        steps: List::new(alloc),
    };
    Ok(Denoted {
        designator,
        kind,
        may_change,
    })
}

fn rooted(
    alloc: Global,
    checker: &mut Checker,
    place: Place,
    name: &Name,
    t: &Shared<DbType>,
    sort: &Sort,
) -> Result<Option<Denoted>, Memory>
    ensures { Judges (judged_root place name.now t.now sort.now) result checker.old checker.new }
{
    let Some(root) = root_of(alloc, name, sort)? else {
        checker.unbuilt();
        return Ok(None);
    };
    let whole = whole_variable(alloc, place, root, t, may_change(sort))?;
    Ok(Some(whole))
}

fn variable(
    alloc: Global,
    checker: &mut Checker,
    place: Place,
    name: &Name,
    decl: &Option<Decl>,
) -> Result<Option<Denoted>, Memory>
    ensures { Judges (of (judged_variable place name.now) decl.now) result checker.old checker.new }
{
    match decl {
        Some(Decl::Variable(t, sort)) => rooted(alloc, checker, place, name, t, sort),
        Some(_) => {
            checker.breaks(12, place);
            Ok(None)
        }
        None => Ok(None),
    }
}

/// What the name of a designator denotes as a variable that stands whole.
pub(crate) fn variable_named(
    alloc: Global,
    checker: &mut Checker,
    d: &Designator,
) -> Result<Option<Denoted>, Memory>
    ensures { Judges (judged_name d.now.head.place (named checker.old.setting d.now.head d.now.parts)) result checker.old checker.new }
{
    let decl = declared(checker, &d.head, second_word(d.parts.as_slice()))?;
    let name = &word_named(checker.setting(), d).name;
    let whole = variable(alloc, checker, d.place(), name, &decl);
    instead(decl, whole)
}
