// What is kept of an open log.
ghost use Rattle.std.specs.Prelude.{◌≡◌, ◌+◌, ◌^◌, ◌<◌};

/// An open log. It is of use until a call fails: after that, open the log again.
#[derive(Debug, Drop)]
pub struct Log {
    /// Where the gate behind the last record stands.
    pub(crate) gate: u64,

    ghost in_range: { gate < 2 ^ 63 },
}

impl Log {
    ghost use Rattle.dbpl_log.specs.Rest.{length_of};

    /// How many bytes of the log count: up to the gate behind the last record, and with it.
    pub fn length(&self) -> u64
        ensures { result ≡ length_of self.now }
    {
        self.gate + 1
    }
}
