//! The calls that a board in memory is told to fail.

ghost use Rattle.std.specs.Prelude.{◌≡◌};
ghost use Rattle.mem_board.specs.Fails.{outcome_of, listed_at};

use crate::change::Outcome;

/// The number of a call, from 1, that fails, and whether its change is done.
#[derive(Clone, Copy, Debug, PartialEq, Eq)]
pub struct Fail {
    pub call: u64,
    pub done: bool,
}

impl Fail {
    // How the call ends.
    fn outcome(&self) -> Outcome
        ensures value { result ≡ outcome_of self.now }
    {
        if self.done {
            Outcome::FailedDone
        } else {
            Outcome::FailedNot
        }
    }
}

/// How the call of a number ends. Of several entries for it the first counts.
pub fn outcome_at(fails: &[Fail], number: u64) -> Outcome
    ensures value { result ≡ listed_at fails.now number }
{
    for fail in fails {
        if fail.call == number {
            return fail.outcome();
        }
    }
    Outcome::Done
}
