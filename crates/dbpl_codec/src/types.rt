//! Descriptors are written as their spelling says.
ghost use Rattle.std.specs.Prelude.{◌≡◌, ◌++◌, ◌&&◌, IsTrue, OnErr, OnOk};
ghost use Rattle.std.specs.List.{flat_map, list_all};
ghost use Rattle.dbpl_codec.specs.Growth.{Begins};
ghost use Rattle.dbpl_codec.specs.Numbers.{count_fits, name_bytes};
ghost use Rattle.dbpl_codec.specs.TypeSpelling.{type_bytes, type_fits};

use crate::numbers::{append_count, append_kind, append_long, append_name, append_names};
use dbpl_base::Memory;
use dbpl_value::{DbType, Field};

/// Appends the spelling of a descriptor.
#[tactic(auto, using(crate::proofs::Growing::grows))]
pub fn write_type(t: &DbType, out: &mut Vec<u8>) -> Result<(), Memory>
    ensures ok { OnOk result (out.new.items ≡ out.old.items ++ type_bytes t.now) }
    ensures fits { OnOk result (IsTrue (type_fits t.now)) }
    ensures err { OnErr result (out.new.items ≡ out.old.items) }
{
    let before = out.len();
    let written = append_type(t, out);
    if written.is_err() {
        out.truncate(before);
    }
    written
}

/// The same, but where memory runs out a part of the spelling may have been appended.
#[cycle(writes)]
#[tactic(auto, using(crate::proofs::Growing::grows))]
fn append_type(t: &DbType, out: &mut Vec<u8>) -> Result<(), Memory>
    ensures ok { OnOk result (out.new.items ≡ out.old.items ++ type_bytes t.now) }
    ensures fits { OnOk result (IsTrue (type_fits t.now)) }
    ensures begins { Begins out.new.items out.old.items }
{
    match t {
        DbType::Int => append_kind(1, out),
        DbType::Card => append_kind(2, out),
        DbType::Bool => append_kind(3, out),
        DbType::Char => append_kind(4, out),
        DbType::Enum(names) => {
            append_kind(5, out)?;
            append_names(names.as_slice(), out)
        }
        DbType::Sub(host, least, greatest) => {
            append_kind(6, out)?;
            append_type(host.get(), out)?;
            append_long(*least, out)?;
            append_long(*greatest, out)
        }
        DbType::Arr(index, element) => {
            append_kind(7, out)?;
            append_type(index.get(), out)?;
            append_type(element.get(), out)
        }
        DbType::Rec(fields) => {
            append_kind(8, out)?;
            append_count(fields.as_slice(), out)?;
            append_fields(fields.as_slice(), out)
        }
        DbType::Rel(keys, record) => {
            append_kind(9, out)?;
            append_names(keys.as_slice(), out)?;
            append_type(record.get(), out)
        }
    }
}

#[cycle(writes)]
#[tactic(auto, using(crate::proofs::Growing::grows))]
fn append_fields(fields: &[Field], out: &mut Vec<u8>) -> Result<(), Memory>
    ensures ok { OnOk result (out.new.items
        ≡ out.old.items ++ flat_map (λ field. name_bytes field.name ++ type_bytes field.kind) fields.now) }
    ensures fits { OnOk result (IsTrue (list_all (λ field. count_fits field.name && type_fits field.kind) fields.now)) }
    ensures begins { Begins out.new.items out.old.items }
{
    for field in fields {
        append_name(&field.name, out)?;
        append_type(&field.kind, out)?;
    }
    Ok(())
}
