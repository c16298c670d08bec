ghost use Rattle.std.specs.Prelude.{◌≡◌};
ghost use Rattle.std.proofs.Common.{rules};
ghost use Rattle.std.specs.Cmp.{partial_order_from_own_ties, partial_order_from_total};
ghost use Rattle.std.specs.Cmp.Rules.{comparing};
ghost use Rattle.std.specs.Ordering.{as_partial_cmp};
ghost use Rattle.dbpl_base.specs.Order.{is_before as is_before_other, refusal_cmp, refusal_total};

use crate::Place;
use std::cmp::Ordering;

/// A rule of the language that a program breaks, and where. The rule S n has the number n, the rule L n the
/// number 100 + n. Refusals are ordered by their places, and at one place by their rules.
#[derive(Clone, Copy, Debug, PartialEq, Eq)]
pub struct Refusal {
    pub place: Place,
    pub rule: u16,
}

impl Refusal {
    /// Whether this one is to be reported rather than the other.
    pub fn is_before(&self, other: &Refusal) -> bool
        ensures { result ≡ is_before_other self.now other.now }
    {
        self.cmp(other).is_lt()
    }
}

impl Ord for Refusal {
    ghost cmp = { refusal_cmp };

    ghost total = { refusal_total };

    ghost matches_partial_cmp = { Prim.search (comparing, rules) };

    ghost matches_eq = { Prim.search (comparing, rules) };

    fn cmp(&self, other: &Refusal) -> Ordering {
        self.place
            .cmp(&other.place)
            .then(self.rule.cmp(&other.rule))
    }
}

impl PartialOrd for Refusal {
    ghost partial_cmp = { as_partial_cmp refusal_cmp };

    ghost laws = { partial_order_from_own_ties (partial_order_from_total refusal_total) (Prim.search (comparing, rules)) };

    fn partial_cmp(&self, other: &Refusal) -> Option<Ordering> {
        Some(self.cmp(other))
    }
}
