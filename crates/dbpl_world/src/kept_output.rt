// An output whose bytes are kept back, and written out where they fill an array or that is asked for.
ghost use Rattle.std.specs.Prelude.{◌≡◌, ◌<◌, ◌≤◌, [], ◌++◌, take, length, true, IfOk, OnOk, OnErr};
ghost use Rattle.std.specs.Io.KnownBytes.{Appends, Keeps};
ghost use Rattle.dbpl_world.specs.Known.{AppendsFront};

use crate::Failed;
use std::io::{ErrorKind, Write};

/// How many bytes are kept back at most.
const ROOM: usize = 8192;

/// The bytes written are always a front of those that were kept: after a write that failed no other is made.
#[derive(Drop)]
pub struct KeptOutput<O> {
    output: O,
    bytes: [u8; ROOM],
    count: usize,
    has_failed: bool,

    ghost within: { count ≤ 8192 },
}

impl<O: Write> KeptOutput<O> {
    ghost use Rattle.dbpl_world.specs.Kept.{kept_in};

    /// An output with nothing kept back.
    pub fn new(output: O) -> KeptOutput<O>
        ensures { kept_in result ≡ [] }
    {
        KeptOutput {
            output,
            bytes: [0; ROOM],
            count: 0,
            has_failed: false,
        }
    }

    /// Keeps back a front of the piece, of one that isn't empty at least one byte, behind those that are kept already. Where
    /// there is no room it writes these out.
    pub fn keep(&mut self, piece: &[u8]) -> Result<usize, Failed>
        ensures count { IfOk result (λ n. (n ≤ length piece.now) × (0 < length piece.now → 0 < n)) }
        ensures behind { IfOk result (λ n. length (kept_in self.old) < 8192 → (kept_in self.new ≡ kept_in self.old ++ take n piece.now) × (self.new.output ≡ self.old.output)) }
        ensures full { IfOk result (λ n. length (kept_in self.old) ≡ 8192 → (kept_in self.new ≡ take n piece.now) × Appends (O.contents self.old.output) (O.contents self.new.output) (kept_in self.old)) }
        ensures failed { OnErr result (self.new.has_failed ≡ true) }
    {
        if self.has_failed {
            return Err(Failed);
        }
        if self.count == ROOM {
            self.write_out()?;
        }
        let count = piece.len().min(ROOM - self.count);
        self.bytes[self.count..self.count + count].copy_from_slice(&piece[..count]);
        self.count += count;
        Ok(count)
    }

    /// Writes out what is kept back. One that failed has written a front of it, and nothing comes behind that.
    pub fn write_out(&mut self) -> Result<(), Failed>
        ensures none { kept_in self.new ≡ [] }
        ensures ok { OnOk result (Appends (O.contents self.old.output) (O.contents self.new.output) (kept_in self.old)) }
        ensures failed { OnErr result (self.new.has_failed ≡ true) }
    {
        let count = self.count;
        self.count = 0;
        if self.has_failed {
            return Err(Failed);
        }
        let written = write_whole(&mut self.output, &self.bytes[..count]);
        self.has_failed = written.is_err();
        written
    }
}

/// Writes all the bytes, or a front of them where it fails.
fn write_whole<O: Write>(output: &mut O, bytes: &[u8]) -> Result<(), Failed>
    ensures ok { OnOk result (Appends (O.contents output.old) (O.contents output.new) bytes.now) }
    ensures front { OnErr result (AppendsFront (O.contents output.old) (O.contents output.new) bytes.now) }
{
    let mut done = 0;
    while done < bytes.len() {
        done += write_some(output, &bytes[done..])?;
    }
    Ok(())
}

/// Writes a front of the bytes, and at least one where there is one.
pub fn write_some<O: Write>(output: &mut O, bytes: &[u8]) -> Result<usize, Failed>
    ensures count { IfOk result (λ n. (n ≤ length bytes.now) × (0 < length bytes.now → 0 < n)) }
    ensures ok { IfOk result (λ n. Appends (O.contents output.old) (O.contents output.new) (take n bytes.now)) }
    ensures err { OnErr result (Keeps (O.contents output.old) (O.contents output.new)) }
{
    for _ in 0..u64::MAX {
        match output.write(bytes) {
            Ok(count) if count > 0 || bytes.is_empty() => return Ok(count),
            Err(error) if error.kind() == ErrorKind::Interrupted => {}
            _ => return Err(Failed),
        }
    }
    Err(Failed)
}
