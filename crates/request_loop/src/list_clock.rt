//! A clock in memory.

ghost use Rattle.std.specs.Prelude.{◌≡◌, [], ◌∷◌};
ghost use Rattle.fault_count.specs.Told.{Gives};
ghost use Rattle.request_loop.specs.Memory.{next_call, number_of, given_by};

use crate::Clock;
use std::marker::Model;

/// A clock that gives the numbers of a list in order, and tells them as long as it does.
#[derive(Debug, Drop)]
pub struct ListClock {
    numbers: Vec<u64>,
    calls: usize,
}

impl Model for ListClock {
    ghost use Rattle.request_loop.specs.Memory.{ClockState};

    ghost Value = { ClockState };

    ghost view = { λ c. record { numbers = c.numbers.items; calls = c.calls } };
}

impl ListClock {
    /// A clock of these numbers. Past their end it gives the last one again, or 0 where there is none.
    pub fn new(numbers: Vec<u64>) -> ListClock
        ensures { result ≡ record { numbers = numbers.items; calls = 0 } }
    {
        ListClock { numbers, calls: 0 }
    }
}

impl Clock for ListClock {
    ghost given = { given_by };

    fn now(&mut self) -> u64
        ensures given { Gives (given_by self.old) (given_by self.new) (result ∷ []) }
        ensures number { result ≡ number_of self.old }
        ensures after { self.new ≡ record self.old { calls = next_call self.old.calls } }
    {
        let next = self.numbers.get(self.calls).or(self.numbers.last());
        self.calls = self.calls.saturating_add(1);
        next.copied().unwrap_or(0)
    }
}
