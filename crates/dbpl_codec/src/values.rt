//! Values are written as their spelling says.
ghost use Rattle.std.specs.Prelude.{◌≡◌, ◌++◌, IsTrue, OnErr, OnOk};
ghost use Rattle.std.specs.List.{flat_map, list_all, zip};
ghost use Rattle.dbpl_codec.specs.Growth.{Begins};
ghost use Rattle.dbpl_codec.specs.ValueSpelling.{bytes_of, value_fits};

use crate::numbers::{append_byte, append_constant, append_count, append_word};
use dbpl_base::Memory;
use dbpl_value::{DbType, Field, Value, number_of, parts_of};

/// Appends the spelling of a value of type `t`.
#[tactic(auto, using(crate::proofs::Growing::grows))]
pub fn write_value(t: &DbType, v: &Value, out: &mut Vec<u8>) -> Result<(), Memory>
    ensures ok { OnOk result (out.new.items ≡ out.old.items ++ bytes_of t.now v.now) }
    ensures fits { OnOk result (IsTrue (value_fits t.now v.now)) }
    ensures err { OnErr result (out.new.items ≡ out.old.items) }
{
    let before = out.len();
    let written = append_value(t, v, out);
    if written.is_err() {
        out.truncate(before);
    }
    written
}

/// The same, but where memory runs out a part of the spelling may have been appended.
#[cycle(writes)]
#[tactic(auto, using(crate::proofs::Growing::grows))]
fn append_value(t: &DbType, v: &Value, out: &mut Vec<u8>) -> Result<(), Memory>
    ensures ok { OnOk result (out.new.items ≡ out.old.items ++ bytes_of t.now v.now) }
    ensures fits { OnOk result (IsTrue (value_fits t.now v.now)) }
    ensures begins { Begins out.new.items out.old.items }
{
    match t {
        DbType::Int | DbType::Card => append_word(number_of(v), out),
        DbType::Enum(_) => append_constant(number_of(v), out),
        DbType::Bool | DbType::Char => append_byte(number_of(v), out),
        DbType::Sub(host, _, _) => append_value(host.get(), v, out),
        DbType::Arr(_, element) => append_all(element.get(), parts_of(v), out),
        DbType::Rec(fields) => append_fields(fields.as_slice(), parts_of(v), out),
        DbType::Rel(_, record) => {
            append_count(parts_of(v), out)?;
            append_all(record.get(), parts_of(v), out)
        }
    }
}

#[cycle(writes)]
#[tactic(auto, using(crate::proofs::Growing::grows))]
fn append_all(t: &DbType, parts: &[Value], out: &mut Vec<u8>) -> Result<(), Memory>
    ensures ok { OnOk result (out.new.items ≡ out.old.items ++ flat_map (bytes_of t.now) parts.now) }
    ensures fits { OnOk result (IsTrue (list_all (value_fits t.now) parts.now)) }
    ensures begins { Begins out.new.items out.old.items }
{
    for part in parts {
        append_value(t, part, out)?;
    }
    Ok(())
}

#[cycle(writes)]
#[tactic(auto, using(crate::proofs::Growing::grows))]
fn append_fields(fields: &[Field], parts: &[Value], out: &mut Vec<u8>) -> Result<(), Memory>
    ensures ok { OnOk result (out.new.items
        ≡ out.old.items ++ flat_map (λ pair. bytes_of pair.0.kind pair.1) (zip fields.now parts.now)) }
    ensures fits { OnOk result
        (IsTrue (list_all (λ pair. value_fits pair.0.kind pair.1) (zip fields.now parts.now))) }
    ensures begins { Begins out.new.items out.old.items }
{
    for i in 0..fields.len().min(parts.len()) {
        append_value(&fields[i].kind, &parts[i], out)?;
    }
    Ok(())
}
