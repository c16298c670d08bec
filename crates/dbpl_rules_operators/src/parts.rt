//! Parts of a tree that are let go of, here where their type is any.
ghost use Rattle.std.specs.Prelude.{◌≡◌, Some, None, if◌then◌else◌};

/// The new part in place of the old one.
pub fn instead<A: Drop, B>(_old: A, new: B) -> B
    ensures { result ≡ new }
{
    new
}

/// The part, where a rule on it holds.
pub fn kept_where<A: Drop>(holds: bool, part: A) -> Option<A>
    ensures { result ≡ (if holds then Some part else None) }
{
    if holds { Some(part) } else { None }
}
