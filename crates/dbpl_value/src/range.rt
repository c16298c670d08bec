//! `Range`: the numbers of an ordinal type.
ghost use Rattle.std.specs.Prelude.{◌≡◌, ◌^◌, IfNone, IfSome};

use crate::DbType;

/// The numbers from the least to the greatest, and none where the greatest is less.
#[derive(Clone, Copy, Debug, PartialEq, Eq)]
pub struct Range {
    pub least: i64,
    pub greatest: i64,
}

impl Range {
    ghost use Rattle.dbpl_value.specs.Types.{is_in, range_count};
    ghost use Rattle.dbpl_value.specs.Values.{start_number};

    pub fn holds(self, n: i64) -> bool
        ensures { result ≡ is_in self n }
    {
        self.least <= n && n <= self.greatest
    }

    /// How many numbers it has, where that is less than 2^64.
    pub fn count(self) -> Option<u64>
        ensures some { IfSome result (λ count. count ≡ range_count self) }
        ensures none { IfNone result (range_count self ≡ 2 ^ 64) }
    {
        if self.least > self.greatest {
            return Some(0);
        }
        self.greatest.abs_diff(self.least).checked_add(1)
    }

    /// The number with which a variable begins.
    pub fn start(self) -> i64
        ensures { result ≡ start_number self }
    {
        if self.holds(0) { 0 } else { self.least }
    }
}
