//! A law of what clients know. The function has an empty body: its contract is the law.

ghost use Rattle.std.specs.Prelude.{◌≡◌, ℕ, List};
ghost use Rattle.std.specs.List.{AllByRecursion};
ghost use Rattle.turn_lock.specs.Lists.{entries_of};
ghost use Rattle.turn_lock.specs.Seats.{SeatView, Recalls};
ghost use Rattle.client_seats.specs.Clients.{ClientView, known_at};
ghost use Rattle.client_seats.specs.Gathering.{Knows};

use turn_lock::Tale;

/// What each client knew of an account are the client's entries in the account's book, at their places.
///
/// The book is what the joined seat recalls, as that of a closed lock.
pub fn known_entries_are_in_the_book<T: Tale>()
    ensures { (book : List T.Entry) (clients : List (ClientView T.Entry)) (account : ℕ) (seat : SeatView T.Entry)
        → Knows (known_at account clients) seat
        → Recalls T.caller book seat
        → AllByRecursion (λ known. entries_of T.caller known.0 book ≡ known.1) (known_at account clients) }
{}
