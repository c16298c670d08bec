//! Where the parts of a text stand.
ghost use Rattle.std.specs.Prelude.{◌≡◌, ◌+◌, ◌-◌, ◌≤◌, length, take};
ghost use Rattle.dbpl_base.specs.Places as places;

use dbpl_base::Place;

/// The place behind one byte.
fn place_behind(place: Place, byte: u8) -> Place
    requires line { place.line + 1 ≤ u32.MAX }
    requires col { place.col + 1 ≤ u32.MAX }
    ensures { result ≡ places.place_behind place byte }
{
    if byte == b'\n' {
        Place {
            unit: place.unit,
            line: place.line + 1,
            col: 1,
        }
    } else {
        Place {
            unit: place.unit,
            line: place.line,
            col: place.col + 1,
        }
    }
}

/// The place behind these bytes.
pub fn place_after(place: Place, bytes: &[u8]) -> Place
    requires line { place.line + length bytes.now ≤ u32.MAX }
    requires col { place.col + length bytes.now ≤ u32.MAX }
    requires counted { 1 ≤ place.col }
    ensures { result ≡ places.place_after place bytes.now }
{
    let mut there = place;
    for byte in bytes {
        there = place_behind(there, *byte);
    }
    there
}
