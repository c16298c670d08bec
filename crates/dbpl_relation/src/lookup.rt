//! Looking up the record with a key.
ghost use Rattle.std.specs.Prelude.{◌≡◌, ◌+◌, ◌*◌, ◌-◌, ◌^◌, ◌≤◌, IsTrue, length};
ghost use Rattle.std.specs.Option.{option_copied};
ghost use Rattle.dbpl_value.specs.Keys.{key_from, keys_rise, parts_of as records_in};
ghost use Rattle.dbpl_value.specs.Values.{is_of};
ghost use Rattle.dbpl_relation.specs.Relations.{is_relation_type, record_with};

use crate::records::records_of;
use dbpl_base::Steps;
use dbpl_value::{DbType, Value, order_to_key};
use std::cmp::Ordering;
use std::sync::ledger::Ledger;

/// The record with this key, if there is one. Each comparison of keys is a step: there are no more than the number of
/// records has binary digits.
pub fn find<'a, L: Ledger>(
    t: &DbType,
    r: &'a Value,
    key: &[Value],
    steps: &mut Steps<L>,
) -> Option<&'a Value>
    requires kind { IsTrue (is_relation_type t.now) }
    requires relation { IsTrue (is_of t.now r.now) }
    ensures found { option_copied result ≡ record_with t.now (key_from key.now) (records_in r.now) }
    ensures cost { 2 ^ (steps.new - steps.old) ≤ 2 * length (records_in r.now) + 1 }
{
    find_in(t, records_of(t, r), key, steps)
}

fn find_in<'a, L: Ledger>(
    t: &DbType,
    records: &'a [Value],
    key: &[Value],
    steps: &mut Steps<L>,
) -> Option<&'a Value>
    ensures found { IsTrue (keys_rise t.now records.now) → option_copied result ≡ record_with t.now (key_from key.now) records.now }
    ensures cost { 2 ^ (steps.new - steps.old) ≤ 2 * length records.now + 1 }
{
    let mut low = 0;
    let mut high = records.len();
    while low < high {
        let middle = low + (high - low) / 2;
        let record = &records[middle];
        steps.tick();
        match order_to_key(t, record, key) {
            Ordering::Less => low = middle + 1,
            Ordering::Equal => return Some(record),
            Ordering::Greater => high = middle,
        }
    }
    None
}
