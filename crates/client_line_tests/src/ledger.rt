//! The value behind an account's lock.

ghost use Rattle.std.specs.Prelude.{◌≡◌};
ghost use Rattle.client_line_tests.specs.Ledgers.{answer_to};

use account_machine::{Answer, Entry, Request, Turn};
use turn_lock::Tale;

/// An account that counts its turns.
#[derive(Drop)]
pub struct Ledger {
    pub turns: u64,
}

impl Tale for Ledger {
    ghost use Rattle.client_line_tests.specs.Ledgers.{caller_of};

    type Entry = Entry;

    ghost caller = { caller_of };

    ghost stands = { λ first now book. Unit {0} };
}

/// What a ledger answers to a turn: each password is right, and no PIN has a count.
pub fn answer_to(turn: &Turn) -> Answer
    ensures value { result ≡ answer_to turn.now }
{
    match turn {
        Turn::Look(_) => Answer::Seen(None),
        Turn::Act(Request::Authenticate { .. }) => Answer::OkPassword(600),
        Turn::Act(_) => Answer::Ok,
        Turn::Clear(_) => Answer::PinsClear,
    }
}
