// The calls on one file of a store. Each goes on where it was cut short, and is made again where a signal came between.
ghost use Rattle.std.specs.Prelude.{◌≡◌, ◌+◌, ◌^◌, ◌<◌, ◌≤◌, IfOk, OnOk, length};

use crate::Failed;
use std::fs::File;
use std::io::ErrorKind;
use std::os::unix::fs::FileExt;

/// The greatest size that a file may have.
const GREATEST: u64 = i64::MAX as u64;

pub fn size_of(file: &File) -> Result<u64, Failed>
    ensures { IfOk result (λ size. size < 2 ^ 63) }
{
    match file.metadata() {
        Ok(data) if data.len() <= GREATEST => Ok(data.len()),
        _ => Err(Failed),
    }
}

/// Reads as many bytes as there are up to the room. Past the greatest size there are none.
pub fn read_whole(file: &File, at: u64, into: &mut [u8]) -> Result<usize, Failed>
    ensures { IfOk result (λ count. count ≤ length into.old) }
{
    let most = into.len().min(GREATEST.saturating_sub(at) as usize);
    let mut done = 0;
    while done < most {
        match read_once(file, at.saturating_add(done as u64), &mut into[done..most])? {
            0 => break,
            count => done += count,
        }
    }
    Ok(done)
}

/// Reads some of the bytes, and none only at the end.
fn read_once(file: &File, at: u64, into: &mut [u8]) -> Result<usize, Failed>
    ensures { IfOk result (λ count. count ≤ length into.old) }
{
    for _ in 0..u64::MAX {
        match file.read_at(into, at) {
            Ok(count) => return Ok(count),
            Err(error) if error.kind() == ErrorKind::Interrupted => {}
            Err(_) => return Err(Failed),
        }
    }
    Err(Failed)
}

/// Writes all the bytes, with zeros in a gap, unless they would come to stand past the greatest place.
pub fn write_whole(file: &File, at: u64, bytes: &[u8]) -> Result<(), Failed>
    ensures { OnOk result (at + length bytes.now < 2 ^ 63) }
{
    let end = at.saturating_add(bytes.len() as u64);
    if end > GREATEST {
        return Err(Failed);
    }
    if bytes.is_empty() && at > size_of(file)? {
        return file.set_len(at).map_err(|_| Failed);
    }
    file.write_all_at(bytes, at).map_err(|_| Failed)
}
