// The bytes of a part in memory: how many, a read, and a write in place.
ghost use Rattle.std.specs.Prelude.{◌≡◌, ◌+◌, ◌-◌, ◌^◌, ◌<◌, ◌≤◌, min, max, length, take, drop, vec_len, vec_capacity};
ghost use Rattle.dbpl_world.specs.Images.{written};
ghost use Rattle.dbpl_world.specs.History.{by_part};

use crate::Part;

/// The bytes of that part.
pub fn part_bytes<'a>(log: &'a Vec<u8>, pages: &'a Vec<u8>, part: Part) -> &'a [u8]
    ensures { result.now ≡ by_part part log.now.items pages.now.items }
{
    match part {
        Part::Log => log.as_slice(),
        Part::Pages => pages.as_slice(),
    }
}

/// Reads from that place on as many bytes as there are up to the room.
pub fn read_into(bytes: &[u8], at: u64, into: &mut [u8]) -> usize
    ensures count { result ≡ min (length into.old) (length bytes.now - at) }
    ensures bytes { take result into.new ≡ take result (drop at bytes.now) }
{
    let start = bytes.len().min(at as usize);
    let rest = &bytes[start..];
    let count = into.len().min(rest.len());
    into[..count].copy_from_slice(&rest[..count]);
    count
}

/// Writes at that place, with zeros in a gap. There is room for the bytes and the gap.
pub fn overwrite(bytes: &mut Vec<u8>, at: usize, piece: &[u8])
    requires fits { at + length piece.now ≤ vec_capacity bytes.old }
    ensures written { bytes.new.items ≡ written bytes.old.items at piece.now }
    ensures long { vec_len bytes.new ≡ max (vec_len bytes.old) (at + length piece.now) }
    ensures room { vec_capacity bytes.old ≤ vec_capacity bytes.new }
{
    if bytes.len() < at {
        let _ = bytes.resize(at, 0);
    }
    let end = at + piece.len();
    if end <= bytes.len() {
        bytes[at..end].copy_from_slice(piece);
    } else {
        bytes.truncate(at);
        let _ = bytes.extend_from_slice(piece);
    }
}

/// Writes to that part.
pub fn overwrite_part(log: &mut Vec<u8>, pages: &mut Vec<u8>, part: Part, at: usize, piece: &[u8])
    requires fits { at + length piece.now ≤ by_part part (vec_capacity log.old) (vec_capacity pages.old) }
    ensures log { log.new.items ≡ by_part part (written log.old.items at piece.now) log.old.items }
    ensures pages { pages.new.items ≡ by_part part pages.old.items (written pages.old.items at piece.now) }
    ensures log_long { vec_len log.new ≡ by_part part (max (vec_len log.old) (at + length piece.now)) (vec_len log.old) }
    ensures pages_long { vec_len pages.new ≡ by_part part (vec_len pages.old) (max (vec_len pages.old) (at + length piece.now)) }
    ensures log_room { vec_capacity log.old ≤ vec_capacity log.new }
    ensures pages_room { vec_capacity pages.old ≤ vec_capacity pages.new }
{
    match part {
        Part::Log => overwrite(log, at, piece),
        Part::Pages => overwrite(pages, at, piece),
    }
}
