//! A sum of what work cost, as [`crate::cost`] estimates it.
ghost use Rattle.std.specs.Prelude.{◌≡◌, ◌+◌, ◌-◌, ◌^◌, min};

/// The estimates for work that was done, added up, in nanoseconds.
#[derive(Clone, Copy)]
pub struct CostMeter {
    nanos: u64,
}

impl CostMeter {
    /// Before any work.
    pub fn new() -> CostMeter
        ensures { result.nanos ≡ 0 }
    {
        CostMeter { nanos: 0 }
    }

    /// Adds what a part of the work cost, in nanoseconds.
    pub fn add(&mut self, nanos: u64)
        ensures { self.new.nanos ≡ min (2 ^ 64 - 1) (self.old.nanos + nanos) }
    {
        self.nanos = self.nanos.saturating_add(nanos);
    }

    /// The cost of all work together, in nanoseconds.
    pub fn total(&self) -> u64
        ensures { result ≡ self.now.nanos }
    {
        self.nanos
    }
}
