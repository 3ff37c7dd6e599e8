//! Calls that are counted down to one.
ghost use Rattle.std.specs.Prelude.{◌≡◌, ℕ, ◌+◌, ◌-◌, ◌==◌, ◌<◌, true, false, if◌then◌else◌};

/// Calls that are counted down to the one that fails.
#[derive(Drop)]
pub struct Countdown {
    pub(crate) calls_left: u64,
    pub(crate) has_failed: bool,
    ghost later: { 0 < calls_left → has_failed ≡ false },
}

impl Countdown {
    /// The `call`th call fails, counted from 1, and none where that is 0.
    pub fn new(call: u64) -> Self
        ensures calls { result.calls_left ≡ call }
        ensures failed { result.has_failed ≡ false }
    {
        Countdown {
            calls_left: call,
            has_failed: false,
        }
    }

    /// Counts one call down, and tells whether it is the one that fails.
    pub fn is_due(&mut self) -> bool
        ensures value { result ≡ (self.old.calls_left == 1) }
        ensures left { self.new.calls_left ≡ self.old.calls_left - 1 }
        ensures failed { self.new.has_failed
            ≡ (if self.old.calls_left == 1 then true else self.old.has_failed) }
        ensures due { (if self.new.has_failed then 1 else 0)
            ≡ (if self.old.has_failed then 1 else 0) + (if result then 1 else 0) }
    {
        let is_due = self.calls_left == 1;
        self.calls_left = self.calls_left.saturating_sub(1);
        if is_due {
            self.has_failed = true;
        }
        is_due
    }
}
