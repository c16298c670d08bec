//! Where a record belongs by its key, and the first record at fault.
ghost use Rattle.std.specs.Prelude.{◌≡◌, ◌<◌, ◌≤◌, IsTrue, MatchResult, length};
ghost use Rattle.dbpl_value.specs.Keys.{key_of, keys_rise};
ghost use Rattle.dbpl_relation.specs.Relations.{IsPlace};

use dbpl_value::{DbType, Value, key_order};

/// The position of the record with the key of this one, or else the position that one with this key belongs at.
pub(crate) fn search(t: &DbType, records: &[Value], sought: &Value) -> Result<usize, usize>
    ensures bound { MatchResult result (λ place. place < length records.now) (λ place. place ≤ length records.now) }
    ensures place { IsTrue (keys_rise t.now records.now) → IsPlace t.now (key_of t.now sought.now) records.now result }
{
    records.binary_search_by(|record| key_order(t, record, sought))
}
