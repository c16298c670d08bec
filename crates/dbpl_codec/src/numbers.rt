//! Numbers, counts and names are appended to the bytes by these functions alone.
ghost use Rattle.std.specs.Prelude.{◌≡◌, ◌++◌, ◌∷◌, [], ◌<◌, ◌^◌, ◌+◌, ◌%◌, IsTrue, OnOk, int_le, length, pos};
ghost use Rattle.byteorder.specs.Endian.{big_bytes};
ghost use Rattle.dbpl_codec.specs.Growth.{Begins};
ghost use Rattle.dbpl_codec.specs.Numbers.{byte_of, count_bytes, long_bytes, name_bytes, names_bytes, names_fit, word_bytes, word_of};

use byteorder::{BigEndian, ByteOrder, LittleEndian};
use dbpl_base::{Memory, Name};

/// The low 32 bits.
pub(crate) fn low_word(n: i64) -> u32
    ensures { result ≡ word_of n }
{
    (n.cast_unsigned() % (1 << 32)) as u32
}

/// The low 8 bits.
pub(crate) fn low_byte(n: i64) -> u8
    ensures { result ≡ byte_of n }
{
    (n.cast_unsigned() % 256) as u8
}

#[tactic(auto, using(crate::proofs::Growing::grows))]
pub(crate) fn append_byte(n: i64, out: &mut Vec<u8>) -> Result<(), Memory>
    ensures ok { OnOk result (out.new.items ≡ out.old.items ++ byte_of n ∷ []) }
    ensures begins { Begins out.new.items out.old.items }
{
    out.push(low_byte(n))?;
    Ok(())
}

/// The byte that says of which kind a type is.
#[tactic(auto, using(crate::proofs::Growing::grows))]
pub(crate) fn append_kind(kind: u8, out: &mut Vec<u8>) -> Result<(), Memory>
    ensures ok { OnOk result (out.new.items ≡ out.old.items ++ kind ∷ []) }
    ensures begins { Begins out.new.items out.old.items }
{
    out.push(kind)?;
    Ok(())
}

#[tactic(auto, using(crate::proofs::Growing::grows))]
pub(crate) fn append_word(n: i64, out: &mut Vec<u8>) -> Result<(), Memory>
    ensures ok { OnOk result (out.new.items ≡ out.old.items ++ word_bytes n) }
    ensures begins { Begins out.new.items out.old.items }
{
    let mut bytes = [0; 4];
    LittleEndian::write_u32(&mut bytes, low_word(n));
    out.extend_from_slice(&bytes)?;
    Ok(())
}

/// The constant of an enumeration. One that four bytes can't hold is taken for want of memory.
#[tactic(auto, using(crate::proofs::Growing::grows))]
pub(crate) fn append_constant(n: i64, out: &mut Vec<u8>) -> Result<(), Memory>
    ensures ok { OnOk result (out.new.items ≡ out.old.items ++ word_bytes n) }
    ensures begins { Begins out.new.items out.old.items }
    ensures fits { OnOk result (IsTrue (int_le n (pos 4294967295))) }
{
    if n > i64::from(u32::MAX) {
        return Err(Memory);
    }
    append_word(n, out)
}

#[tactic(auto, using(crate::proofs::Growing::grows))]
pub(crate) fn append_long(n: i64, out: &mut Vec<u8>) -> Result<(), Memory>
    ensures ok { OnOk result (out.new.items ≡ out.old.items ++ long_bytes n) }
    ensures begins { Begins out.new.items out.old.items }
{
    let mut bytes = [0; 8];
    LittleEndian::write_i64(&mut bytes, n);
    out.extend_from_slice(&bytes)?;
    Ok(())
}

/// A number of a key, in four bytes with the highest first.
#[tactic(auto, using(crate::proofs::Growing::grows))]
pub(crate) fn append_key_word(n: u32, out: &mut Vec<u8>) -> Result<(), Memory>
    ensures ok { OnOk result (out.new.items ≡ out.old.items ++ big_bytes 4 n) }
    ensures begins { Begins out.new.items out.old.items }
{
    let mut bytes = [0; 4];
    BigEndian::write_u32(&mut bytes, n);
    out.extend_from_slice(&bytes)?;
    Ok(())
}

/// How many items there are. A count that four bytes can't hold is taken for want of memory.
#[tactic(auto, using(crate::proofs::Growing::grows))]
pub(crate) fn append_count<T>(items: &[T], out: &mut Vec<u8>) -> Result<(), Memory>
    ensures ok { OnOk result (out.new.items ≡ out.old.items ++ count_bytes items.now) }
    ensures begins { Begins out.new.items out.old.items }
    ensures fits { OnOk result (length items.now < 2 ^ 32) }
{
    let Ok(count) = u32::try_from(items.len()) else {
        return Err(Memory);
    };
    let mut bytes = [0; 4];
    LittleEndian::write_u32(&mut bytes, count);
    out.extend_from_slice(&bytes)?;
    Ok(())
}

#[tactic(auto, using(crate::proofs::Growing::grows))]
pub(crate) fn append_name(name: &Name, out: &mut Vec<u8>) -> Result<(), Memory>
    ensures ok { OnOk result (out.new.items ≡ out.old.items ++ name_bytes name.now) }
    ensures begins { Begins out.new.items out.old.items }
    ensures fits { OnOk result (length name.now < 2 ^ 32) }
{
    append_count(name.as_bytes(), out)?;
    out.extend_from_slice(name.as_bytes())?;
    Ok(())
}

#[tactic(auto, using(crate::proofs::Growing::grows))]
pub(crate) fn append_names(names: &[Name], out: &mut Vec<u8>) -> Result<(), Memory>
    ensures ok { OnOk result (out.new.items ≡ out.old.items ++ names_bytes names.now) }
    ensures fits { OnOk result (IsTrue (names_fit names.now)) }
    ensures begins { Begins out.new.items out.old.items }
{
    append_count(names, out)?;
    for name in names {
        append_name(name, out)?;
    }
    Ok(())
}
