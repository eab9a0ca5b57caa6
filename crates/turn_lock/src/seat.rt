//! A caller's seat, and what it is told after a turn.
ghost use Rattle.std.specs.Prelude.{◌≡◌};

use crate::table::Place;
use crate::tale::Tale;
use std::marker::Model;

/// A caller's token for a lock of a `T`.
///
/// Contracts see which lock it is of, its caller number, its own entries with their places, the
/// numbers of the seats that it joined with their entries, and its spare numbers.
pub type Seat<T> = SeatOf<T, <T as Tale>::Entry>;

/// A `Seat`, by the types of the value and of the entry.
#[derive(Drop)]
pub struct SeatOf<T, E> {
    pub(crate) place: Place<T, E>,
    pub(crate) caller: u32,
    // The spare numbers go from `spare` up to `end`, which is the number of callers.
    pub(crate) spare: u32,
    pub(crate) end: u32,
}

impl<T, E> Model for SeatOf<T, E> {
    ghost use Rattle.std.specs.Prelude.{◌≡◌};
    ghost use Rattle.turn_lock.specs.Seats.{SeatView};

    ghost Value = { SeatView E };

    ghost use Rattle.turn_lock.specs.Insides.{seat_at, HasNumbers, IsAtRest};

    ghost view = { λ seat. seat_at seat.place seat.end };

    ghost invariant = { λ seat. IsAtRest seat.place
        × HasNumbers seat.place seat.caller seat.spare seat.end };
}

impl<T, E> SeatOf<T, E> {
    /// Its caller number.
    pub fn caller(&self) -> u32
        ensures { result ≡ self.now.caller }
    {
        self.caller
    }
}

/// What a caller is told after its turn.
#[derive(Clone, Copy, Debug, PartialEq, Eq)]
pub struct Receipt {
    /// The place of the entry in the chain, counted from 0, modulo 2^64.
    pub place: u64,
}
