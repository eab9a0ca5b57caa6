//! The count of faults that each object outside the program keeps.

ghost use Rattle.std.specs.Prelude.{◌≡◌, ◌≤◌};
ghost use Rattle.fault_count.specs.Causes.{Rose};

use std::marker::Model;

/// The object outside failed. Its count of faults says how often it has.
#[derive(Clone, Copy, Debug, PartialEq, Eq)]
pub struct Failed;

/// How often an object has failed, seen as a number. It stays at 2^64 - 1 once it is there.
#[derive(Debug, Drop)]
pub struct FaultCount {
    count: u64,
}

impl Model for FaultCount {
    ghost use Rattle.std.specs.Prelude.{ℕ};

    ghost Value = { ℕ };

    ghost view = { λ f. f.count };
}

impl FaultCount {
    /// No fault so far.
    pub fn new() -> FaultCount
        ensures { result ≡ 0 }
    {
        FaultCount { count: 0 }
    }

    /// Counts one more fault, and gives the answer for it.
    pub fn raise(&mut self) -> Failed
        ensures rose { Rose self.old self.new }
        ensures later { self.old ≤ self.new }
    {
        self.count = self.count.saturating_add(1);
        Failed
    }
}
