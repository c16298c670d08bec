// The counts of a world.
ghost use Rattle.std.specs.Prelude.{◌≡◌, ◌+◌, ◌-◌, ◌^◌, min};

/// How often each kind of call has failed, and how often the pages were read. No count falls, and each stands still at
/// the greatest u64.
#[derive(Clone, Copy, Debug, PartialEq, Eq)]
pub struct Counts {
    pub take_faults: u64,
    pub say_faults: u64,
    pub note_faults: u64,
    pub disk_faults: u64,
    pub page_reads: u64,
}

impl Counts {
    pub const ZERO: Counts = Counts {
        take_faults: 0,
        say_faults: 0,
        note_faults: 0,
        disk_faults: 0,
        page_reads: 0,
    };
}

/// One more, or the greatest u64.
pub fn raised(count: u64) -> u64
    ensures { result ≡ min (count + 1) (2 ^ 64 - 1) }
{
    count.saturating_add(1)
}
