//! Parts of a tree, joined and boxed. A part is let go of here, where its type is any: in a function that knows it to be a tree
//! that costs its proof much.
ghost use Rattle.std.specs.Prelude.{◌≡◌, IfOk, Ok};

use dbpl_base::{Boxed, Memory};
use std::alloc::Global;

/// A part that is copied, and the next one, or its refusal.
pub fn pair<A: Drop, B: Drop>(one: A, other: Result<B, Memory>) -> Result<(A, B), Memory>
    ensures { IfOk result (λ both. (both.0 ≡ one) × (other ≡ Ok both.1)) }
{
    Ok((one, other?))
}

/// A part that is copied, with its own memory, or its refusal.
pub fn boxed<T: Drop>(alloc: Global, copied: Result<T, Memory>) -> Result<Boxed<T>, Memory>
    ensures { IfOk result (λ one. copied ≡ Ok one) }
{
    Boxed::new(alloc, copied?)
}
