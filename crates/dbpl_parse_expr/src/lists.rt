//! Lists of what a loop has read.
ghost use Rattle.std.specs.Prelude.{◌≡◌, IfOk};
ghost use Rattle.dbpl_grammar.specs.Expressions as spec;

use dbpl_base::{List, Memory};
use std::alloc::Global;

/// The first item and the others as one list.
pub fn all_of<T: Drop>(alloc: Global, found: Option<(T, List<T>)>) -> Result<List<T>, Memory>
    ensures { IfOk result (λ items. items ≡ spec.all_of found) }
{
    match found {
        None => Ok(List::new(alloc)),
        Some((first, mut others)) => {
            others.insert(0, first)?;
            Ok(others)
        }
    }
}
