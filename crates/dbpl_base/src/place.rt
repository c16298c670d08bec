ghost use Rattle.std.proofs.Common.{rules};
ghost use Rattle.std.specs.Cmp.{partial_order_from_own_ties, partial_order_from_total};
ghost use Rattle.std.specs.Cmp.Rules.{comparing};
ghost use Rattle.std.specs.Ordering.{as_partial_cmp};
ghost use Rattle.dbpl_base.specs.Order.{place_cmp, place_total};

use std::cmp::Ordering;

/// A place in a program's text: the position of its file in the command, from 0, and a line and a column, both
/// from 1. Byte 10 ends a line, and every other byte is one column. Places are ordered as the text is read.
#[derive(Clone, Copy, Debug, PartialEq, Eq)]
pub struct Place {
    pub unit: u8,
    pub line: u32,
    pub col: u32,
}

impl Ord for Place {
    ghost cmp = { place_cmp };

    ghost total = { place_total };

    ghost matches_partial_cmp = { Prim.search (comparing, rules) };

    ghost matches_eq = { Prim.search (comparing, rules) };

    fn cmp(&self, other: &Place) -> Ordering {
        self.unit
            .cmp(&other.unit)
            .then(self.line.cmp(&other.line).then(self.col.cmp(&other.col)))
    }
}

impl PartialOrd for Place {
    ghost partial_cmp = { as_partial_cmp place_cmp };

    ghost laws = { partial_order_from_own_ties (partial_order_from_total place_total) (Prim.search (comparing, rules)) };

    fn partial_cmp(&self, other: &Place) -> Option<Ordering> {
        Some(self.cmp(other))
    }
}
