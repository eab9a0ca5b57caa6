//! What a client's lines need of a home.

ghost use Rattle.std.specs.Prelude.{◌≡◌, Bool, List, Option};
ghost use Rattle.turn_lock.specs.Seats.{LockId};
ghost use Rattle.client_output.specs.Grown.{SeatSeen, Calls};
ghost use Rattle.client_output.specs.Output.{NamesPlainly};
ghost use Rattle.client_output.specs.Seats.{BareSeat};
ghost use Rattle.request_forms.specs.Formed.{IsFormedRequest};
ghost use Rattle.client_lines.specs.Seats.{AreSeatsOf};

use account_machine::{Answer, Request};
use std::alloc::Global;
use std::sync::Wait;

/// A home of many accounts, which threads may share. Each of its clients has a seat.
pub trait Home {
    /// A client's seats of the accounts' locks.
    type Seat: Drop;

    /// Whether the home has PINs.
    ghost pins: { Self → Bool };

    /// The accounts' locks, in order.
    ghost locks: { Self → List LockId };

    /// What a seat knows: its client, and of each account the client's own entries.
    ghost seen: { Self → Self.Seat → SeatSeen };

    /// What no call changes of a seat: all but what it knows. One of an account's lock may be away.
    ghost bare: { Self.Seat → List (Option BareSeat) };

    /// Whether the home has PINs. Where it has none, the requests that speak of them are no requests.
    fn has_pins(&self) -> bool
        ensures value { result ≡ pins self.now };

    /// Makes the turns of a request, and gives its answer. The moment is the number that the clock gave, in seconds.
    ///
    /// An account that the home doesn't serve makes no turn. Without memory for a turn's entry there is no act, and
    /// the answer is that of no memory.
    fn call<R: Wait>(
        &self,
        rt: &R,
        alloc: Global,
        seat: Self::Seat,
        request: &Request,
        moment: u64,
    ) -> (Self::Seat, Answer)
        requires of { AreSeatsOf (locks self.now) (seen self.now seat).caller (bare seat) }
        requires formed { IsFormedRequest request.now }
        ensures bare { bare result.0 ≡ bare seat }
        ensures calls { Calls (seen self.now seat) (seen self.now result.0) request.now moment result.1 }
        ensures named { NamesPlainly result.1 };
}
