//! A type, from all of the bytes of its descriptor.
ghost use Rattle.std.specs.Prelude.{◌≡◌, IfOk, IsTrue, Some};
ghost use Rattle.dbpl_value.specs.Types.{is_type as is_type_of};
ghost use Rattle.dbpl_value.specs.declared.db_type.DbType.{DbType};
ghost use Rattle.dbpl_codec.specs.Reading.{Gives, whole};
ghost use Rattle.dbpl_codec.specs.TypeReading.{type_at as type_of};
ghost use Rattle.dbpl_codec.specs.TypeSpelling.{type_bytes, type_fits};

use crate::ReadErr;
use crate::type_reads::type_at;
use dbpl_base::limits::TYPE_DEPTH;
use dbpl_value::{DbType, is_type};
use std::alloc::Global;

/// The type whose descriptor these bytes are.
pub fn read_type(alloc: Global, bytes: &[u8]) -> Result<DbType, ReadErr>
    // What is read keeps the rules and was spelled so.
    ensures found { IfOk result
        (λ t. IsTrue (is_type_of t) × IsTrue (type_fits t) × (bytes.now ≡ type_bytes t)) }
    // What keeps the rules and is spelled so is read, unless memory runs out.
    ensures only { (t : DbType) → IsTrue (is_type_of t) → IsTrue (type_fits t) → bytes.now ≡ type_bytes t →
        Gives (λ u. u) result (Some t) }
{
    let t = whole_type(alloc, bytes)?;
    if is_type(alloc, &t)? {
        Ok(t)
    } else {
        Err(ReadErr::Malformed)
    }
}

fn whole_type(alloc: Global, bytes: &[u8]) -> Result<DbType, ReadErr>
    ensures { Gives (λ t. t) result (whole (type_of TYPE_DEPTH bytes.now)) }
{
    let (t, rest) = type_at(alloc, TYPE_DEPTH, bytes)?;
    if rest.is_empty() {
        Ok(t)
    } else {
        Err(ReadErr::Malformed)
    }
}
