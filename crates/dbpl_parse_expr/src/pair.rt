//! Parts of a tree, one behind the other. What was read so far is let go of here, where its type is any: in a function that knows
//! it to be a tree that costs its proof much.
ghost use Rattle.std.specs.Prelude.{◌≡◌, IfErr, IfOk, Ok, Err};

use crate::ReadErr;

/// A part and what is read behind it, or its refusal.
pub fn pair<A: Drop, B: Drop>(
    one: A,
    other: Result<(B, usize), ReadErr>,
) -> Result<((A, B), usize), ReadErr>
    ensures ok { IfOk result (λ both. (both.0.0 ≡ one) × (other ≡ Ok (both.0.1, both.1))) }
    ensures err { IfErr result (λ error. other ≡ Err error) }
{
    let (other, at) = other?;
    Ok(((one, other), at))
}

/// A part and the position behind what closes it, or the refusal there.
pub fn closing<A: Drop>(one: A, next: Result<usize, ReadErr>) -> Result<(A, usize), ReadErr>
    ensures ok { IfOk result (λ found. (found.0 ≡ one) × (next ≡ Ok found.1)) }
    ensures err { IfErr result (λ error. next ≡ Err error) }
{
    Ok((one, next?))
}
