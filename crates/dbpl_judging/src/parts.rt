//! Parts of a tree, joined, boxed and listed. A part is let go of here, where its type is any: in a function that knows it to be
//! a tree that costs its proof much. So no function of the rules owns a tree where it leaves by a `?` or for want of a part.
ghost use Rattle.std.specs.Prelude.{◌≡◌, Err, IfErr, IfOk, IsOkAnd, None, Ok};
ghost use Rattle.dbpl_judging.specs.Judgements.{added, paired};
ghost use Rattle.dbpl_judging.specs.Parts.{with_found};

use dbpl_base::{Boxed, List, Memory};
use std::alloc::Global;

/// A part that was judged, and the next one, or its want of memory.
pub fn pair<A: Drop, B: Drop>(one: A, other: Result<B, Memory>) -> Result<(A, B), Memory>
    ensures ok { IfOk result (λ both. (both.0 ≡ one) × (other ≡ Ok both.1)) }
    ensures err { IfErr result (λ error. other ≡ Err error) }
{
    Ok((one, other?))
}

/// Two parts, or none where one of them is missing.
pub fn both_of<A: Drop, B: Drop>(one: Option<A>, other: Option<B>) -> Option<(A, B)>
    ensures { result ≡ paired one other }
{
    match (one, other) {
        (Some(one), Some(other)) => Some((one, other)),
        _ => None,
    }
}

/// A part with what was found of it, where something was.
pub fn kept<A: Drop, B: Drop>(
    part: A,
    found: Result<Option<B>, Memory>,
) -> Result<Option<(A, B)>, Memory>
    ensures { result ≡ with_found part found }
{
    match found {
        Ok(Some(found)) => Ok(Some((part, found))),
        Ok(None) => Ok(None),
        Err(err) => Err(err),
    }
}

/// What is known of a part, and the part with memory of its own.
pub fn boxed<A: Drop, T: Drop>(alloc: Global, known: A, part: T) -> Result<(A, Boxed<T>), Memory>
    ensures { IfOk result (λ both. (both.0 ≡ known) × (both.1 ≡ part)) }
{
    let part = Boxed::new(alloc, part)?;
    Ok((known, part))
}

/// The list with one part more, or nothing where a part of it is missing, for which it takes no memory.
pub fn pushed<T: Drop>(
    list: Option<List<T>>,
    part: Result<Option<T>, Memory>,
) -> Result<Option<List<T>>, Memory>
    ensures ok { IfOk result (λ longer. IsOkAnd part (λ part. longer ≡ added list part)) }
    ensures missing { IsOkAnd part (λ part. paired list part ≡ None) → result ≡ Ok None }
{
    match both_of(list, part?) {
        Some((mut list, part)) => {
            list.push(part)?;
            Ok(Some(list))
        }
        None => Ok(None),
    }
}
