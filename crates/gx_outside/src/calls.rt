//! How often a device was called, how often it failed, and whether memory ran out in the last call.
ghost use Rattle.std.specs.Prelude.{◌≡◌};
ghost use Rattle.gx_outside.specs.Outside.{HasCause, no_call, counted_call};

/// The counts of a device. A count at 2^64 - 1, which no run reaches, stands still.
#[derive(Clone, Copy)]
pub struct Calls {
    /// How many calls were made.
    pub made: u64,
    /// How many of them failed.
    pub faults: u64,
    /// Whether the last one failed.
    pub failing: bool,
    /// Whether memory ran out in the last one.
    pub wanting: bool,
}

impl Calls {
    /// The counts before the first call.
    pub fn none() -> Calls
        ensures { result ≡ no_call }
    {
        Calls {
            made: 0,
            faults: 0,
            failing: false,
            wanting: false,
        }
    }

    /// Notes one more call, whether it failed, and whether memory ran out in it.
    pub fn note(&mut self, failed: bool, wanted: bool)
        ensures after { self.new ≡ counted_call self.old failed wanted }
        ensures cause { HasCause self.old self.new failed wanted }
    {
        self.made = self.made.saturating_add(1);
        self.failing = failed;
        self.wanting = wanted;
        if failed {
            self.faults = self.faults.saturating_add(1);
        }
    }
}
