//! The places of declarations: where the latest of a name stands among those that are held.
ghost use Rattle.std.specs.Prelude.{◌≡◌, ◌<◌, ◌-◌, ◌++◌, [], ◌∷◌, drop, filter, length, slice_get, take, IfOk, IsSome, OnErr, OnOk};
ghost use Rattle.std.specs.BTreeMap.{IsUnchanged, get};
ghost use Rattle.std.specs.Cmp.Lexicographic.{slice_cmp};
ghost use Rattle.std.specs.Option.{option_and_then, option_copied};
ghost use Rattle.std.specs.Ordering.{nat_cmp};
ghost use Rattle.dbpl_symbols.specs.Interfaces.{is_own};
ghost use Rattle.dbpl_symbols.specs.Places.{IsIndexed, Moves, pairs_of};

use crate::Pair;
use crate::copies::copy_pair;
use crate::held::Held;
use dbpl_base::{List, Memory, Name};
use std::alloc::Global;
use std::collections::BTreeMap;

/// The latest declaration of the name.
pub(crate) fn find<'a>(
    held: &'a List<Held>,
    places: &BTreeMap<Name, usize>,
    name: &Name,
) -> Option<&'a Held>
    ensures { option_copied result ≡ option_and_then (slice_get held.now) (get (slice_cmp nat_cmp) places.now name.now) }
{
    match places.get(name) {
        Some(place) => held.get(*place),
        None => None,
    }
}

/// Adds a declaration, which hides the latest of its name.
pub(crate) fn add(
    held: &mut List<Held>,
    places: &mut BTreeMap<Name, usize>,
    alloc: Global,
    pair: Pair,
) -> Result<(), Memory>
    requires { IsIndexed held.old places.old }
    ensures indexed { IsIndexed held.new places.new }
    ensures ok { OnOk result (pairs_of held.new ≡ pairs_of held.old ++ pair ∷ []) }
    ensures err { OnErr result (held.new ≡ held.old) }
{
    let name = pair.name.copy(alloc)?;
    let hides = places.get(&pair.name).copied();
    let place = held.len();
    held.push(Held { pair, hides })?;
    match note(places, name, place) {
        Ok(()) => Ok(()),
        Err(refusal) => {
            held.truncate(place);
            Err(refusal)
        }
    }
}

/// Gives the name this place.
fn note(places: &mut BTreeMap<Name, usize>, name: Name, place: usize) -> Result<(), Memory>
    ensures ok { OnOk result (Moves name (Some place) places.old places.new) }
    ensures err { OnErr result (IsUnchanged places.old places.new) }
{
    places.insert(name, place)?;
    Ok(())
}

/// Keeps so many declarations. What the others hid is found again.
#[tactic(auto, using(crate::proofs::HeldLaws::cut_more, crate::proofs::HeldLaws::cut_all))]
pub(crate) fn cut(held: &mut List<Held>, places: &mut BTreeMap<Name, usize>, start: usize)
    requires { IsIndexed held.old places.old }
    ensures indexed { IsIndexed held.new places.new }
    ensures front { held.new ≡ take start held.old }
{
    while held.len() > start {
        take_off(held, places);
    }
}

/// Takes the last declaration off.
fn take_off(held: &mut List<Held>, places: &mut BTreeMap<Name, usize>)
    requires some { 0 < length held.old }
    requires indexed { IsIndexed held.old places.old }
    ensures front { held.new ≡ take (length held.old - 1) held.old }
    ensures indexed { IsIndexed held.new places.new }
{
    let last = held.len() - 1;
    let all = held.as_slice();
    restore(places, &all[last]);
    held.truncate(last);
}

/// What stands from a place on.
pub(crate) fn from(held: &[Held], start: usize) -> &[Held]
    ensures { result.now ≡ drop start held.now }
{
    if start <= held.len() {
        &held[start..]
    } else {
        &[]
    }
}

/// Copies of the declarations that were made here.
pub(crate) fn copy_own(alloc: Global, held: &[Held]) -> Result<List<Pair>, Memory>
    ensures { IfOk result (λ pairs. pairs ≡ filter is_own (pairs_of held.now)) }
{
    let mut pairs = List::new(alloc);
    for one in held {
        if one.pair.is_own() {
            pairs.push(copy_pair(alloc, &one.pair)?)?;
        }
    }
    Ok(pairs)
}

/// Gives the name the place that it had before this declaration.
fn restore(places: &mut BTreeMap<Name, usize>, last: &Held)
    requires { IsSome (get (slice_cmp nat_cmp) places.old last.now.pair.name) }
    ensures { Moves last.now.pair.name last.now.hides places.old places.new }
{
    match last.hides {
        Some(place) => {
            if let Some(latest) = places.get_mut(&last.pair.name) {
                *latest = place;
            }
        }
        None => {
            places.remove(&last.pair.name);
        }
    }
}
