//! A relation variable of a program finds its place in a database.
ghost use Rattle.std.specs.Prelude.{◌≡◌, ◌≤◌, ◌<◌, IfOk, IfSome, insert, length, OnErr, slice_get};
ghost use Rattle.std.specs.List.{position_from, position_or_len};
ghost use Rattle.std.specs.Option.{option_and_then};
ghost use Rattle.std.specs.Ordering.{is_lt};
ghost use Rattle.dbpl_value.specs.Binding.{bound_named, empty_bound as empty_bound_of, with_bound};
ghost use Rattle.dbpl_value.specs.Databases.{name_cmp};
ghost use Rattle.dbpl_value.specs.Types.{is_same_name};

use crate::names::is_less;
use dbpl_base::{List, Memory, Name};
use dbpl_value::{Bound, Field, Value, copy_type};
use std::alloc::Global;

/// Where the relation variable of this name stands, if it is there.
pub fn place_of(database: &[Bound], name: &Name) -> Option<usize>
    ensures named { option_and_then (slice_get database.now) result ≡ bound_named name.now database.now }
    ensures within { IfSome result (λ at. at < length database.now) }
{
    first_named(database, name)
}

fn first_named(database: &[Bound], name: &Name) -> Option<usize>
    ensures { result ≡ position_from (λ bound. is_same_name bound.name name.now) 0 database.now }
{
    database.iter().position(|bound| bound.name == *name)
}

/// Adds a relation variable of a program, empty, where it belongs, and answers where that is.
pub fn add_empty(alloc: Global, database: &mut List<Bound>, field: &Field) -> Result<usize, Memory>
    ensures inserted { IfOk result (λ at. database.new ≡ insert database.old at (empty_bound_of field.now)) }
    ensures within { IfOk result (λ at. at ≤ length database.old) }
    ensures ok { IfOk result (λ at. database.new ≡ with_bound (empty_bound_of field.now) database.old) }
    ensures err { OnErr result (database.new ≡ database.old) }
{
    let bound = empty_bound(alloc, field)?;
    let at = place(database.as_slice(), &field.name);
    database.insert(at, bound)?;
    Ok(at)
}

fn empty_bound(alloc: Global, field: &Field) -> Result<Bound, Memory>
    ensures { IfOk result (λ bound. bound ≡ empty_bound_of field.now) }
{
    Ok(Bound {
        name: field.name.copy(alloc)?,
        kind: copy_type(alloc, &field.kind)?,
        rel: Value::Rel(List::new(alloc)),
    })
}

/// Where a relation variable of this name belongs.
fn place(database: &[Bound], name: &Name) -> usize
    ensures place { result ≡ position_or_len (λ bound. is_lt (name_cmp name.now bound.name)) database.now }
    ensures within { result ≤ length database.now }
{
    first_above(database, name).unwrap_or(database.len())
}

fn first_above(database: &[Bound], name: &Name) -> Option<usize>
    ensures { result ≡ position_from (λ bound. is_lt (name_cmp name.now bound.name)) 0 database.now }
{
    database.iter().position(|bound| is_less(name, &bound.name))
}
