ghost use Rattle.std.specs.Prelude.{◌≡◌};
ghost use Rattle.dbpl_rules_expr.specs.declared.rule_err.RuleErr.TheVariants.{Memory as WantOfMemory};

use dbpl_base::{Memory, Refusal};

/// Why a phrase isn't accepted.
#[derive(Clone, Copy, Debug, PartialEq, Eq)]
pub enum RuleErr {
    /// It breaks rules, of which this breach is the least.
    Breach(Refusal),
    /// Memory was wanting.
    Memory,
}

impl From<Memory> for RuleErr {
    ghost from_gives = { λ _ error. error ≡ WantOfMemory };

    fn from(_: Memory) -> RuleErr {
        RuleErr::Memory
    }
}
