// Which calls of a world in memory fail: those whose number is listed, and those that pass the room.
ghost use Rattle.std.specs.Prelude.{◌≡◌, ◌+◌, ◌≤◌, ◌↔◌, IsTrue, MatchBool, IfOk, if◌then◌else◌};

use crate::counts::raised;
use std::alloc::{AllocError, Global};

#[derive(Debug, Drop)]
pub struct Budget {
    pub fails: Vec<u64>,
    pub calls: u64,
    pub left: usize,
}

impl Budget {
    ghost use Rattle.dbpl_world.specs.Budget.{rule_of, MustFail, Allows, after_call};

    pub fn new(alloc: Global, fails: &[u64], room: usize) -> Result<Budget, AllocError>
        ensures { IfOk result (λ budget. rule_of budget ≡ record { fails = fails.now; calls = 0; left = room }) }
    {
        let mut listed = Vec::new(alloc);
        listed.extend_from_slice(fails)?;
        Ok(Budget {
            fails: listed,
            calls: 0,
            left: room,
        })
    }

    /// Whether a call that moves so many bytes, and fills so large a gap, goes well.
    pub fn allows(&self, gap: u64, count: usize) -> bool
        ensures { MatchBool result (Allows (rule_of self.now) (gap + count)) (MustFail (rule_of self.now) (gap + count)) }
    {
        !self.fails.contains(&self.calls) && is_within(self.left, gap, count)
    }

    /// Counts a call, and takes its cost. Answers whether it goes well.
    pub fn charge(&mut self, gap: u64, count: usize) -> bool
        ensures exact { MatchBool result (Allows (rule_of self.old) (gap + count)) (MustFail (rule_of self.old) (gap + count)) }
        ensures charged { rule_of self.new ≡ after_call (rule_of self.old) (if result then gap + count else 0) }
    {
        let allowed = self.allows(gap, count);
        let cost = if allowed {
            64 + gap as usize + count
        } else {
            64
        };
        self.calls = raised(self.calls);
        self.left = self.left.saturating_sub(cost);
        allowed
    }
}

/// Whether what is left pays for one call with a gap and so many bytes.
fn is_within(left: usize, gap: u64, count: usize) -> bool
    ensures { IsTrue result ↔ (64 + (gap + count) ≤ left) }
{
    64 <= left && gap <= left as u64 - 64 && count as u64 <= left as u64 - 64 - gap
}
