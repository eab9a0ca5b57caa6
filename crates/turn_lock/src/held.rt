//! A seat that has the lock.
ghost use Rattle.std.specs.Prelude.{◌≡◌};

use crate::table::Place;
use crate::tale::Tale;
use link_chain::{Chain, Link};
use std::marker::Model;

/// A seat that has the lock of a `T`, with the value and the link that it brought.
///
/// Contracts see the seat, the entries so far, the value, and the entry in the link. It can't be
/// let go: only the lock's `leave` takes it.
pub type Held<T> = HeldOf<T, <T as Tale>::Entry>;

/// A `Held`, by the types of the value and of the entry.
pub struct HeldOf<T, E> {
    pub(crate) place: Place<T, E>,
    pub(crate) caller: u32,
    pub(crate) spare: u32,
    pub(crate) end: u32,
    pub(crate) chain: Chain<E>,
    pub(crate) value: T,
    pub(crate) link: Link<E>,
}

impl<T, E> Model for HeldOf<T, E> {
    ghost use Rattle.std.specs.Prelude.{◌≡◌};
    ghost use Rattle.turn_lock.specs.Seats.{HeldView};

    ghost Value = { HeldView T E };

    ghost use Rattle.turn_lock.specs.Insides.{seat_at, HasNumbers, HasLock};

    ghost view = { λ held. record {
      seat = seat_at held.place held.end;
      before = held.chain;
      value = held.value;
      entry = held.link;
    } };

    ghost invariant = { λ held. HasLock held.place held.chain
        × HasNumbers held.place held.caller held.spare held.end };
}

impl<T, E> HeldOf<T, E> {
    ghost use Rattle.std.specs.Prelude.{◌≡◌};
    ghost use Rattle.std.specs.Borrow.{sem};
    ghost use Rattle.turn_lock.specs.Lending.{LendsValue, LendsEntry};

    /// The value, to be changed.
    pub fn value(&mut self) -> &mut T
        ensures* writes_back { sem 𝓛 (LendsValue T.row E.row self.entry result) }
        ensures value { result.now ≡ self.old.value }
    {
        &mut self.value
    }

    /// The entry in the brought link, to be changed.
    pub fn entry(&mut self) -> &mut E
        ensures* writes_back { sem 𝓛 (LendsEntry T.row E.row self.entry result) }
        ensures value { result.now ≡ self.old.entry }
    {
        self.link.entry_mut()
    }
}
