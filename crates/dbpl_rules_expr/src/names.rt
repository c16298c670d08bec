//! Names: which declaration they mean.
ghost use Rattle.std.specs.Prelude.{◌≡◌, if◌then◌else◌, None, Ok};
ghost use Rattle.std.specs.Option.{option_copied};
ghost use Rattle.dbpl_judging.specs.Judgements.{breaks as judged_break, good, of};
ghost use Rattle.dbpl_judging.specs.Judging.{Judges};
ghost use Rattle.dbpl_rules_expr.specs.Names.{declared as judged_word, is_qual_whole as is_whole_qual, named, parts_behind as parts_left, qual_named as judged_qual, second_word as word_behind, unit_named as unit_of, whole_name as judged_whole, whole_word as judged_whole_word, word};
ghost use Rattle.dbpl_tree.specs.Plain.{is_empty};

use dbpl_base::{Memory, Place};
use dbpl_judging::{Checker, Setting};
use dbpl_symbols::{Decl, Exports, copy_decl, exported};
use dbpl_tree::{Designator, Ident, Part, Qual};

/// What a module of this name shows, if the name is that of a module.
fn unit_named<'a>(setting: &'a Setting, head: &Ident) -> Option<&'a Exports>
    ensures { option_copied result ≡ unit_of setting.now head.now }
{
    match setting.scope.look(&head.name) {
        Some(Decl::Unit(exports)) => Some(exports.get()),
        _ => None,
    }
}

/// Whether a module's name stands before the last word.
pub(crate) fn is_behind_module(setting: &Setting, head: &Ident, second: Option<&Ident>) -> bool
    ensures { result ≡ (word setting.now head.now (option_copied second.entry)).behind_module }
{
    match (unit_named(setting, head), second) {
        (Some(_), Some(_)) => true,
        _ => false,
    }
}

/// The last word of a name.
pub(crate) fn last_word<'a>(
    setting: &Setting,
    head: &'a Ident,
    second: Option<&'a Ident>,
) -> &'a Ident
    ensures { result.now ≡ (word setting.now head.now (option_copied second.entry)).ident }
{
    match (unit_named(setting, head), second) {
        (Some(_), Some(x)) => x,
        _ => head,
    }
}

fn rule_of(setting: &Setting, head: &Ident, second: Option<&Ident>) -> u16
    ensures { result ≡ (word setting.now head.now (option_copied second.entry)).rule }
{
    match (unit_named(setting, head), second) {
        (Some(_), Some(_)) => 11,
        _ => 10,
    }
}

/// What is declared.
pub(crate) fn found_of<'a>(
    setting: &'a Setting,
    head: &Ident,
    second: Option<&Ident>,
) -> Option<&'a Decl>
    ensures { option_copied result ≡ (word setting.now head.now (option_copied second.entry)).found }
{
    match (unit_named(setting, head), second) {
        (Some(exports), Some(x)) => exported(exports, &x.name),
        _ => setting.scope.look(&head.name),
    }
}

/// The word behind a first dot.
pub(crate) fn second_word(parts: &[Part]) -> Option<&Ident>
    ensures { option_copied result ≡ word_behind parts.now }
{
    match parts {
        [Part::Field(x), ..] => Some(x),
        _ => None,
    }
}

/// The parts behind a name.
fn parts_behind(behind_module: bool, parts: &[Part]) -> &[Part]
    ensures { result.now ≡ parts_left behind_module parts.now }
{
    match parts {
        [_, others @ ..] if behind_module => others,
        _ => parts,
    }
}

/// The parts behind the name of a designator.
pub(crate) fn parts_of<'a>(setting: &Setting, d: &'a Designator) -> &'a [Part]
    ensures { result.now ≡ (named setting.now d.now.head d.now.parts).parts }
{
    let parts = d.parts.as_slice();
    parts_behind(
        is_behind_module(setting, &d.head, second_word(parts)),
        parts,
    )
}

/// Whether no parts stand behind a name.
pub(crate) fn is_whole(parts: &[Part]) -> bool
    ensures { result ≡ is_empty parts.now }
{
    matches!(parts, [])
}

/// Whether no parts stand behind the name of a designator.
pub(crate) fn stands_alone(setting: &Setting, d: &Designator) -> bool
    ensures { result ≡ is_empty (named setting.now d.now.head d.now.parts).parts }
{
    is_whole(parts_of(setting, d))
}

/// What is declared by the name of a designator.
pub(crate) fn found_named<'a>(setting: &'a Setting, d: &Designator) -> Option<&'a Decl>
    ensures { option_copied result ≡ (named setting.now d.now.head d.now.parts).word.found }
{
    found_of(setting, &d.head, second_word(d.parts.as_slice()))
}

/// The last word of the name of a designator.
pub(crate) fn word_named<'a>(setting: &Setting, d: &'a Designator) -> &'a Ident
    ensures { result.now ≡ (named setting.now d.now.head d.now.parts).word.ident }
{
    last_word(setting, &d.head, second_word(d.parts.as_slice()))
}

/// The declaration of a name, with one owner more.
pub(crate) fn declared(
    checker: &mut Checker,
    head: &Ident,
    second: Option<&Ident>,
) -> Result<Option<Decl>, Memory>
    ensures { Judges (judged_word (word checker.old.setting head.now (option_copied second.entry))) result checker.old checker.new }
{
    let rule = rule_of(checker.setting(), head, second);
    let place = last_word(checker.setting(), head, second).place;
    match found_of(checker.setting(), head, second) {
        Some(Decl::Unknown) => Ok(None),
        Some(decl) => Ok(Some(copy_decl(decl)?)),
        None => {
            checker.breaks(rule, place);
            Ok(None)
        }
    }
}

/// A declaration whose name stands alone, or breaks the rule on that.
fn alone(
    checker: &mut Checker,
    place: Place,
    stands_alone: bool,
    decl: Option<Decl>,
) -> Option<Decl>
    ensures answer { result ≡ (if stands_alone then decl else None) }
    ensures noted { Judges (of (λ decl. if stands_alone then good decl else judged_break 12 place) decl) (Ok result) checker.old checker.new }
{
    if stands_alone {
        return decl;
    }
    if decl.is_some() {
        checker.breaks(12, place);
    }
    None
}

/// The declaration of a name that begins at this place and is to stand alone.
fn whole_word(
    checker: &mut Checker,
    place: Place,
    head: &Ident,
    second: Option<&Ident>,
    stands_alone: bool,
) -> Result<Option<Decl>, Memory>
    ensures { Judges (judged_whole_word place stands_alone (word checker.old.setting head.now (option_copied second.entry))) result checker.old checker.new }
{
    let decl = declared(checker, head, second)?;
    Ok(alone(checker, place, stands_alone, decl))
}

/// The declaration of a designator that is to stand alone.
pub(crate) fn whole_name(checker: &mut Checker, d: &Designator) -> Result<Option<Decl>, Memory>
    ensures { Judges (judged_whole d.now.head.place (named checker.old.setting d.now.head d.now.parts)) result checker.old checker.new }
{
    let stands_alone = stands_alone(checker.setting(), d);
    let second = second_word(d.parts.as_slice());
    whole_word(checker, d.place(), &d.head, second, stands_alone)
}

fn is_qual_whole(behind_module: bool, second: Option<&Ident>) -> bool
    ensures { result ≡ is_whole_qual behind_module (option_copied second.entry) }
{
    behind_module || second.is_none()
}

/// The declaration of a name that may have a module's before it.
pub(crate) fn qual_named(checker: &mut Checker, q: &Qual) -> Result<Option<Decl>, Memory>
    ensures { Judges (judged_qual checker.old.setting q.now) result checker.old checker.new }
{
    let second = q.second.as_ref();
    let behind_module = is_behind_module(checker.setting(), &q.first, second);
    let is_whole = is_qual_whole(behind_module, second);
    whole_word(checker, q.place(), &q.first, second, is_whole)
}
