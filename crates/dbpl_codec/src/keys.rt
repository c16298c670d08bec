//! Keys are written so that their bytes compare as they do.
ghost use Rattle.std.specs.Prelude.{◌≡◌, ◌++◌, OnErr, OnOk};
ghost use Rattle.std.specs.List.{flat_map};
ghost use Rattle.dbpl_codec.specs.Growth.{Begins};
ghost use Rattle.dbpl_codec.specs.KeySpelling.{component_bytes, key_bytes_of};

use crate::numbers::{append_byte, append_key_word, low_word};
use dbpl_base::Memory;
use dbpl_value::{DbType, Value, key_type, keys_of, number_of, parts_of};

/// Appends the key bytes of a key in a relation of type `t`, or of its first components.
#[tactic(auto, using(crate::proofs::Growing::grows))]
pub fn key_bytes(t: &DbType, key: &[Value], out: &mut Vec<u8>) -> Result<(), Memory>
    ensures ok { OnOk result (out.new.items ≡ out.old.items ++ key_bytes_of t.now key.now) }
    ensures err { OnErr result (out.new.items ≡ out.old.items) }
{
    let before = out.len();
    let written = append_key(t, key, out);
    if written.is_err() {
        out.truncate(before);
    }
    written
}

/// The same, but where memory runs out a part of the key bytes may have been appended.
#[tactic(auto, using(crate::proofs::Growing::grows))]
fn append_key(t: &DbType, key: &[Value], out: &mut Vec<u8>) -> Result<(), Memory>
    ensures ok { OnOk result (out.new.items ≡ out.old.items ++ key_bytes_of t.now key.now) }
    ensures begins { Begins out.new.items out.old.items }
{
    let keys = keys_of(t);
    for i in 0..keys.len().min(key.len()) {
        component(key_type(t, &keys[i]), &key[i], out)?;
    }
    Ok(())
}

#[cycle(components)]
#[tactic(auto, using(crate::proofs::Growing::grows))]
fn component(t: &DbType, v: &Value, out: &mut Vec<u8>) -> Result<(), Memory>
    ensures ok { OnOk result (out.new.items ≡ out.old.items ++ component_bytes t.now v.now) }
    ensures begins { Begins out.new.items out.old.items }
{
    match t {
        DbType::Int => append_key_word(low_word(number_of(v)).wrapping_add(1 << 31), out),
        DbType::Card | DbType::Enum(_) => append_key_word(low_word(number_of(v)), out),
        DbType::Bool | DbType::Char => append_byte(number_of(v), out),
        DbType::Sub(host, _, _) => component(host.get(), v, out),
        DbType::Arr(_, element) => characters(element.get(), parts_of(v), out),
        DbType::Rec(_) | DbType::Rel(_, _) => Ok(()),
    }
}

#[cycle(components)]
#[tactic(auto, using(crate::proofs::Growing::grows))]
fn characters(t: &DbType, parts: &[Value], out: &mut Vec<u8>) -> Result<(), Memory>
    ensures ok { OnOk result (out.new.items ≡ out.old.items ++ flat_map (component_bytes t.now) parts.now) }
    ensures begins { Begins out.new.items out.old.items }
{
    for part in parts {
        component(t, part, out)?;
    }
    Ok(())
}
