//! Laws of what clients are told. Each function has an empty body: its contract is the law.

ghost use Rattle.std.specs.Prelude.{List};
ghost use Rattle.std.specs.List.{AllByRecursion};
ghost use Rattle.turn_lock.specs.Seats.{SeatView, Recalls};
ghost use Rattle.home_locks.specs.Accounts.{StandsAt};
ghost use Rattle.home_locks.specs.Meanings.{client_of};
ghost use Rattle.home_locks.specs.declared.account.Entry.{Entry as EntrySeen};

use crate::kind::AccountTurns;

/// Each turn that a client's seat knows stands in the account's book, at the place that its receipt told.
///
/// `settle` says of which book a seat knows the turns.
pub fn known_turns_are_in_the_book<K: AccountTurns>()
    ensures { (book : List (EntrySeen K.Turn)) (seat : SeatView (EntrySeen K.Turn))
        → Recalls client_of book seat → AllByRecursion (λ known. StandsAt book known.0 known.1) seat.own }
{}
