//! Databases are written as their spelling says.
ghost use Rattle.std.specs.Prelude.{◌≡◌, ◌++◌, IfOk, IsTrue, OnOk};
ghost use Rattle.std.specs.List.{flat_map, list_all};
ghost use Rattle.dbpl_codec.specs.Numbers.{count_bytes, count_fits, name_bytes};
ghost use Rattle.dbpl_database.specs.Spelling.{bound_bytes, bound_fits, database_bytes, database_fits};

use byteorder::{ByteOrder, LittleEndian};
use dbpl_base::Memory;
use dbpl_codec::{write_type, write_value};
use dbpl_value::Bound;
use std::alloc::Global;

/// The spelling of a database. A count that four bytes can't hold is taken for want of memory.
pub fn write_database(alloc: Global, database: &[Bound]) -> Result<Vec<u8>, Memory>
    ensures spelt { IfOk result (λ bytes. bytes.items ≡ database_bytes database.now) }
    ensures fits { OnOk result (IsTrue (database_fits database.now)) }
{
    let mut out = Vec::new(alloc);
    write_count(database, &mut out)?;
    for bound in database {
        write_bound(alloc, bound, &mut out)?;
    }
    Ok(out)
}

fn write_bound(alloc: Global, bound: &Bound, out: &mut Vec<u8>) -> Result<(), Memory>
    ensures ok { OnOk result (out.new.items ≡ out.old.items ++ bound_bytes bound.now) }
    ensures fits { OnOk result (IsTrue (bound_fits bound.now)) }
{
    let mut kind = Vec::new(alloc);
    write_type(&bound.kind, &mut kind)?;
    let mut rel = Vec::new(alloc);
    write_value(&bound.kind, &bound.rel, &mut rel)?;
    write_string(bound.name.as_bytes(), out)?;
    write_string(kind.as_slice(), out)?;
    write_string(rel.as_slice(), out)?;
    Ok(())
}

/// Bytes behind their number.
fn write_string(bytes: &[u8], out: &mut Vec<u8>) -> Result<(), Memory>
    ensures ok { OnOk result (out.new.items ≡ out.old.items ++ name_bytes bytes.now) }
    ensures fits { OnOk result (IsTrue (count_fits bytes.now)) }
{
    write_count(bytes, out)?;
    out.extend_from_slice(bytes)?;
    Ok(())
}

/// How many items there are.
fn write_count<T>(items: &[T], out: &mut Vec<u8>) -> Result<(), Memory>
    ensures ok { OnOk result (out.new.items ≡ out.old.items ++ count_bytes items.now) }
    ensures fits { OnOk result (IsTrue (count_fits items.now)) }
{
    let Ok(count) = u32::try_from(items.len()) else {
        return Err(Memory);
    };
    let mut bytes = [0; 4];
    LittleEndian::write_u32(&mut bytes, count);
    out.extend_from_slice(&bytes)?;
    Ok(())
}
