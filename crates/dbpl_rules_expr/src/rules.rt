//! The tests of the rules of designators and aggregates.
ghost use Rattle.std.specs.Prelude.{◌≡◌, ◌&&◌, ◌==◌, length, map, replicate};
ghost use Rattle.std.specs.List.{list_all};
ghost use Rattle.dbpl_rules_operators.specs.Fitting.{fits as fits_type};
ghost use Rattle.dbpl_rules_calls.specs.Rules.{is_relation_type};
ghost use Rattle.dbpl_rules_expr.specs.Rules.{S32, S34, S41, S42, S42_number, S53, is_array_type, part_count as count_of_parts};
ghost use Rattle.dbpl_value.specs.Equality.{each_passes};
ghost use Rattle.dbpl_value.specs.Types.{count_of as count_of_type};

use dbpl_base::Name;
use dbpl_judging::Typed;
use dbpl_rules_calls::Denoted;
use dbpl_rules_operators::{fits, index_of, lies_in, takes_kind};
use dbpl_value::{DbType, Field, count_of, fields_of};

pub(crate) fn is_array(t: &DbType) -> bool
    ensures { result ≡ is_array_type t.now }
{
    matches!(t, DbType::Arr(_, _))
}

pub(crate) fn is_relation(t: &DbType) -> bool
    ensures { result ≡ is_relation_type t.now }
{
    matches!(t, DbType::Rel(_, _))
}

/// S32
pub(crate) fn field_position(t: &DbType, name: &Name) -> Option<usize>
    ensures { result ≡ S32 t.now name.now }
{
    fields_of(t).iter().position(|field| field.name == *name)
}

/// S34
pub(crate) fn is_index(t: &DbType, indices: &[Typed]) -> bool
    ensures { result ≡ S34 t.now (map (λ index. index.facts) indices.now) }
{
    match indices {
        [index] => {
            takes_kind(index_of(t), &index.facts.kind) && lies_in(index_of(t), index.facts.number)
        }
        _ => false,
    }
}

/// S41
pub(crate) fn has_parts(t: &DbType) -> bool
    ensures { result ≡ S41 t.now }
{
    matches!(t, DbType::Rec(_) | DbType::Arr(_, _))
}

fn all_fit(t: &DbType, parts: &[Typed]) -> bool
    ensures { result ≡ list_all (λ part. fits_type t.now part.facts) parts.now }
{
    parts.iter().all(|part| fits(t, &part.facts))
}

#[tactic(auto, using(crate::proofs::Passing::unequal))]
fn each_fits(fields: &[Field], parts: &[Typed]) -> bool
    ensures { result ≡ each_passes (map fits_type (map (λ field. field.kind) fields.now)) (map (λ part. part.facts) parts.now) }
{
    if fields.len() != parts.len() {
        return false;
    }
    for i in 0..fields.len() {
        if !fits(&fields[i].kind, &parts[i].facts) {
            return false;
        }
    }
    true
}

fn is_count(index: &DbType, count: usize) -> bool
    ensures { result ≡ (count_of_type index.now == count) }
{
    match count_of(index) {
        Some(all) => all == count as u64,
        None => false,
    }
}

#[tactic(auto, using(crate::proofs::Passing::all_same))]
fn elements_fit(index: &DbType, element: &DbType, parts: &[Typed]) -> bool
    ensures { result ≡ each_passes (map fits_type (replicate (count_of_type index.now) element.now)) (map (λ part. part.facts) parts.now) }
{
    is_count(index, parts.len()) && all_fit(element, parts)
}

/// S42
pub(crate) fn fit_parts(t: &DbType, parts: &[Typed]) -> bool
    ensures { result ≡ S42 t.now (map (λ part. part.facts) parts.now) }
{
    match t {
        DbType::Arr(index, element) => elements_fit(index.get(), element.get(), parts),
        _ => each_fits(fields_of(t), parts),
    }
}

fn is_part_count(t: &DbType, count: usize) -> bool
    ensures { result ≡ (count_of_parts t.now == count) }
{
    match t {
        DbType::Arr(index, _) => is_count(index.get(), count),
        _ => fields_of(t).len() == count,
    }
}

/// S42, of the number of elements alone.
pub(crate) fn is_number_of_parts(t: &DbType, count: usize) -> bool
    ensures { result ≡ S42_number t.now count }
{
    !has_parts(t) || is_part_count(t, count)
}

/// S53
pub(crate) fn changes(denoted: &Denoted) -> bool
    ensures { result ≡ S53 denoted.now }
{
    denoted.may_change
}
