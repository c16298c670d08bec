//! Which phrases fit a type, and what stands in the tree where a value of the type is asked for.
ghost use Rattle.std.specs.Prelude.{◌≡◌, ◌==◌, ◌&&◌, ◌||◌, IfOk, nat_le, unwrap_or};
ghost use Rattle.dbpl_rules_operators.specs.Hosts.{host, host_of, is_character, is_whole};
ghost use Rattle.dbpl_value.specs.Types.{count_of as count_of_type, is_char_array as is_char_array_type};
ghost use Rattle.dbpl_rules_operators.specs.Fitting.{as_array as array_of, as_ordinal as ordinal_of, as_type as typed_as, fits as fits_type, fitted as fitted_to, index_of as index_type, lies_in as lies_in_type, takes_kind as takes_kind_of, takes_text as takes_text_of};

use crate::hosts::{has_one_host, phrase_host, type_host};
use crate::parts::instead;
use dbpl_base::{Boxed, Memory, Shared};
use dbpl_core::CoreExpr;
use dbpl_judging::{Facts, Kind, pair};
use dbpl_value::{DbType, count_of, is_char_array, range_of};
use std::alloc::Global;

/// The index type of an array, and a type itself where it is none.
pub fn index_of(t: &DbType) -> &DbType
    ensures { result.now ≡ index_type t.now }
{
    match t {
        DbType::Arr(index, _) => index.get(),
        _ => t,
    }
}

fn is_one_character(t: &DbType, length: u64) -> bool
    ensures { result ≡ (length == 1 && is_character (host_of t.now)) }
{
    length == 1 && type_host(t).is_character()
}

fn is_as_long(t: &DbType, length: u64) -> bool
    ensures { result ≡ nat_le length (count_of_type (index_type t.now)) }
{
    match count_of(index_of(t)) {
        Some(count) => length <= count,
        None => true,
    }
}

fn is_long_array(t: &DbType, length: u64) -> bool
    ensures { result ≡ (is_char_array_type t.now && nat_le length (count_of_type (index_type t.now))) }
{
    is_char_array(t) && is_as_long(t, length)
}

fn takes_text(t: &DbType, length: u64) -> bool
    ensures { result ≡ takes_text_of t.now length }
{
    is_one_character(t, length) || is_long_array(t, length)
}

/// Whether a phrase has the type's host or is of the type itself.
pub fn takes_kind(t: &DbType, kind: &Kind) -> bool
    ensures { result ≡ takes_kind_of t.now kind.now }
{
    match kind {
        Kind::Whole => type_host(t).is_whole(),
        Kind::Text(length, _) => takes_text(t, *length),
        Kind::Of(other) => has_one_host(t, other.get()),
    }
}

/// Whether a constant lies in the type, where that is ordinal.
pub fn lies_in(t: &DbType, number: Option<i64>) -> bool
    ensures { result ≡ lies_in_type t.now number }
{
    match (number, range_of(t)) {
        (Some(n), Some(range)) => range.holds(n),
        _ => true,
    }
}

fn are_whole(t: &DbType, kind: &Kind) -> bool
    ensures { result ≡ (is_whole (host kind.now) && is_whole (host_of t.now)) }
{
    phrase_host(kind).is_whole() && type_host(t).is_whole()
}

fn is_alike(t: &DbType, kind: &Kind) -> bool
    ensures { result ≡ (takes_kind_of t.now kind.now || (is_whole (host kind.now) && is_whole (host_of t.now))) }
{
    takes_kind(t, kind) || are_whole(t, kind)
}

/// Whether a phrase is assignable to the type.
pub fn fits(t: &DbType, facts: &Facts) -> bool
    ensures { result ≡ fits_type t.now facts.now }
{
    is_alike(t, &facts.kind) && lies_in(t, facts.number)
}

/// The tree of an ordinal phrase: a string is its one character.
pub fn as_ordinal(
    alloc: Global,
    facts: &Facts,
    tree: Boxed<CoreExpr>,
) -> Result<Boxed<CoreExpr>, Memory>
    ensures { IfOk result (λ made. made ≡ ordinal_of (record { facts = facts.now; tree = tree })) }
{
    match &facts.kind {
        Kind::Text(_, first) => {
            let number = Boxed::new(alloc, CoreExpr::Number(facts.place, i64::from(*first)));
            instead(tree, number)
        }
        _ => Ok(tree),
    }
}

/// The tree of a phrase of this type that isn't ordinal: a string has the array's type.
fn as_array(
    alloc: Global,
    t: &Shared<DbType>,
    tree: Boxed<CoreExpr>,
) -> Result<Boxed<CoreExpr>, Memory>
    ensures { IfOk result (λ made. made ≡ array_of t.now tree) }
{
    match array_text(alloc, t, tree.get())? {
        Some(text) => Ok(instead(tree, text)),
        None => Ok(tree),
    }
}

/// The string that a tree is, of the array's type.
fn array_text(
    alloc: Global,
    t: &Shared<DbType>,
    tree: &CoreExpr,
) -> Result<Option<Boxed<CoreExpr>>, Memory>
    ensures { IfOk result (λ made. unwrap_or made tree.now ≡ array_of t.now tree.now) }
{
    match tree {
        CoreExpr::Text(place, _, text) => {
            let text = CoreExpr::Text(*place, Some(t.share()?), text.share()?);
            Ok(Some(Boxed::new(alloc, text)?))
        }
        _ => Ok(None),
    }
}

/// The tree of a phrase that the type takes, as one of the type.
pub fn as_type(
    alloc: Global,
    t: &Shared<DbType>,
    facts: &Facts,
    tree: Boxed<CoreExpr>,
) -> Result<Boxed<CoreExpr>, Memory>
    ensures { IfOk result (λ made. made ≡ typed_as t.now (record { facts = facts.now; tree = tree })) }
{
    if range_of(t.get()).is_some() {
        as_ordinal(alloc, facts, tree)
    } else {
        as_array(alloc, t, tree)
    }
}

/// The tree of a phrase that fits the type: where that is ordinal, with a test of fit at the phrase's first token.
pub fn fitted(
    alloc: Global,
    t: &Shared<DbType>,
    facts: &Facts,
    tree: Boxed<CoreExpr>,
) -> Result<Boxed<CoreExpr>, Memory>
    ensures { IfOk result (λ made. made ≡ fitted_to t.now (record { facts = facts.now; tree = tree })) }
{
    if range_of(t.get()).is_some() {
        let (t, tree) = pair(t.share()?, as_ordinal(alloc, facts, tree))?;
        Boxed::new(alloc, CoreExpr::Fitted(facts.place, t, tree))
    } else {
        as_array(alloc, t, tree)
    }
}
