//! Databases are read from left to right.
ghost use Rattle.std.specs.Prelude.{◌≡◌, ◌&&◌, [], IfOk, IsTrue, None, Some, if◌then◌else◌};
ghost use Rattle.dbpl_codec.specs.Reading.{Gives, repeat, whole, word_at};
ghost use Rattle.dbpl_codec.specs.TypeReading.{name_at};
ghost use Rattle.dbpl_value.specs.Types.{is_type};
ghost use Rattle.dbpl_value.specs.Values.{is_of};
ghost use Rattle.dbpl_value.specs.Databases.{are_small as are_small_records, is_bound as is_bound_of, is_database, is_kept_name as is_kept_name_of, is_kept_type as is_kept_type_of};
ghost use Rattle.dbpl_database.specs.Reading.{bound_at as bound_of, bound_from as bound_from_strings, bounds_at, database_of, type_in, value_in};
ghost use Rattle.dbpl_database.specs.Spelling.{database_bytes, database_fits};

use crate::limits::{are_small, is_kept_type};
use crate::names::{is_kept_name, rise};
use crate::strings::{string, word};
use dbpl_base::{List, name_of};
use dbpl_codec::{ReadErr, read_type, read_value};
use dbpl_value::{Bound, DbType, Value};
use std::alloc::Global;

/// The database that these bytes spell.
pub fn read_database(alloc: Global, bytes: &[u8]) -> Result<List<Bound>, ReadErr>
    ensures reads { Gives (λ database. database) result (database_of bytes.now) }
    // What is read is a database and was spelled so.
    ensures found { IfOk result (λ database. IsTrue (is_database database) × IsTrue (database_fits database)
        × (bytes.now ≡ database_bytes database)) }
{
    risen_database(alloc, bytes)
}

#[tactic(auto, unfolding(crate::specs::Reading::database_of))]
fn risen_database(alloc: Global, bytes: &[u8]) -> Result<List<Bound>, ReadErr>
    ensures { Gives (λ database. database) result (database_of bytes.now) }
{
    let database = whole_database(alloc, bytes)?;
    if rise(database.as_slice()) {
        Ok(database)
    } else {
        Err(ReadErr::Malformed)
    }
}

#[tactic(auto, unfolding(crate::specs::Reading::bounds_at))]
fn whole_database(alloc: Global, bytes: &[u8]) -> Result<List<Bound>, ReadErr>
    ensures { Gives (λ database. database) result (whole (bounds_at bytes.now)) }
{
    let (count, rest) = word(bytes)?;
    let (database, rest) = bounds(alloc, count, rest)?;
    if rest.is_empty() {
        Ok(database)
    } else {
        Err(ReadErr::Malformed)
    }
}

/// So many relation variables. The list grows as they are read, so that a count alone takes no memory.
fn bounds(alloc: Global, count: u32, bytes: &[u8]) -> Result<(List<Bound>, &[u8]), ReadErr>
    ensures { Gives (λ x. (x.0, x.1.now)) result (repeat bound_of count [] bytes.now) }
{
    let mut database = List::new(alloc);
    let mut rest = bytes;
    for _at in 0..count {
        let (bound, after) = bound_at(alloc, rest)?;
        database.push(bound)?;
        rest = after;
    }
    Ok((database, rest))
}

#[tactic(auto, unfolding(crate::specs::Reading::bound_at))]
fn bound_at(alloc: Global, bytes: &[u8]) -> Result<(Bound, &[u8]), ReadErr>
    ensures { Gives (λ x. (x.0, x.1.now)) result (bound_of bytes.now) }
{
    let (name, rest) = string(bytes)?;
    let (kind, rest) = string(rest)?;
    let (rel, rest) = string(rest)?;
    Ok((bound_from(alloc, name, kind, rel)?, rest))
}

/// A relation variable from its name, its descriptor and its relation.
#[tactic(auto, unfolding(crate::specs::Reading::bound_from))]
fn bound_from(alloc: Global, name: &[u8], kind: &[u8], rel: &[u8]) -> Result<Bound, ReadErr>
    ensures { Gives (λ bound. bound) result (bound_from_strings name.now kind.now rel.now) }
{
    let kind = type_from(alloc, kind)?;
    let rel = value_from(alloc, &kind, rel)?;
    let name = name_of(alloc, name)?;
    kept(Bound { name, kind, rel })
}

fn type_from(alloc: Global, bytes: &[u8]) -> Result<DbType, ReadErr>
    ensures reads { Gives (λ t. t) result (type_in bytes.now) }
    ensures typed { IfOk result (λ t. IsTrue (is_type t)) }
{
    read_type(alloc, bytes)
}

fn value_from(alloc: Global, t: &DbType, bytes: &[u8]) -> Result<Value, ReadErr>
    requires typed { IsTrue (is_type t.now) }
    ensures reads { Gives (λ v. v) result (value_in t.now bytes.now) }
    ensures of { IfOk result (λ v. IsTrue (is_of t.now v)) }
{
    read_value(alloc, t, bytes)
}

/// The relation variable, where it can be kept.
fn kept(bound: Bound) -> Result<Bound, ReadErr>
    requires typed { IsTrue (is_type bound.kind) }
    requires of { IsTrue (is_of bound.kind bound.rel) }
    ensures { Gives (λ kept. kept) result (if is_bound_of bound then Some bound else None) }
{
    if is_bound(&bound) {
        Ok(bound)
    } else {
        Err(ReadErr::Malformed)
    }
}

/// Whether it can be kept, of a relation variable with a type and a relation of it.
fn is_bound(bound: &Bound) -> bool
    ensures { result ≡ (is_kept_name_of bound.now.name && is_kept_type_of bound.now.kind && are_small_records bound.now.kind bound.now.rel) }
{
    is_kept_name(bound.name.as_bytes())
        && is_kept_type(&bound.kind)
        && are_small(&bound.kind, &bound.rel)
}
