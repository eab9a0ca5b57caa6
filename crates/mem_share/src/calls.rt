//! The calls of a share in memory, which are counted, and which of them fail.

ghost use Rattle.std.specs.Prelude.{◌≡◌};
ghost use Rattle.fault_count.specs.Causes.{Rose};
ghost use Rattle.mem_share.specs.Counts.{next_number, next_listed};

use crate::fail::{Fail, listed_at};
use fault_count::FaultCount;

/// The calls that are to fail, how many were made, and how often there was no memory.
#[derive(Drop)]
pub struct CallList {
    pub fails: Vec<Fail>,
    pub made: u64,
    pub starved: FaultCount,
}

impl CallList {
    /// Counts a call, and says whether the list names it, and if so whether its change is done.
    pub fn next(&mut self) -> Option<bool>
        ensures value { result ≡ next_listed self.old }
        ensures made { self.new.made ≡ next_number self.old }
        ensures fails { self.new.fails ≡ self.old.fails }
        ensures starved { self.new.starved ≡ self.old.starved }
    {
        self.made = self.made.saturating_add(1);
        listed_at(&self.fails, self.made)
    }

    /// Counts a want of memory.
    pub fn starve(&mut self)
        ensures rose { Rose self.old.starved self.new.starved }
        ensures made { self.new.made ≡ self.old.made }
        ensures fails { self.new.fails ≡ self.old.fails }
    {
        let _ = self.starved.raise();
    }
}
