//! The lock.
ghost use Rattle.std.specs.Prelude.{◌≡◌, ◌+◌, ◌%◌, ◌^◌, ◌<◌, [], ◌∷◌, ◌++◌, length, All, IfOk, IfErr};
ghost use Rattle.turn_lock.specs.Seats.{new_seat, first_seat, joined_seat, seat_after, HasNumbersOf, HasEachNumber, Recalls};

use crate::held::{Held, HeldOf};
use crate::seat::{Receipt, Seat, SeatOf};
use crate::slot::{emptied_slot, filled_slot, last_content};
use crate::spare::spare_of_both;
use crate::steps::{CountNumbers, DrawTicket, GiveNumber, TakeNumbers};
use crate::table::{Content, LockTable, MadeWith, Place};
use crate::tale::Tale;
use crate::turn::{pass_on, wait};
use atomic_table::{Refused, Table};
use ct_bytes::NoMemory;
use link_chain::{Chain, Link};
use std::alloc::Global;
use std::marker::{Brand, Model};
use std::snapshot::Snapshot;
use std::sync::Wait;

/// A lock that serves its callers in the order of the tickets that they draw, and keeps with its
/// value the chain of the entries that they left.
///
/// Contracts see which lock it is, for how many callers, and the value that it was made with.
#[derive(Drop)]
pub struct Turnstile<T: Tale> {
    table: LockTable<T>,
}

impl<T: Tale> Model for Turnstile<T> {
    ghost use Rattle.std.specs.Prelude.{◌≡◌};
    ghost use Rattle.turn_lock.specs.Seats.{Lock};

    ghost Value = { Lock T };

    ghost view = { λ lock. record {
      id = record {
        table = lock.table.shared.table_id;
        callers = lock.table.shared.key.callers;
      };
      first = lock.table.shared.key.value.value;
    } };

    ghost invariant = { λ lock. (lock.table.shared.table_id.words ≡ 2)
        × (lock.table.shared.table_id.slots ≡ 1) };
}

impl<T: Tale> Turnstile<T> {
    /// A lock for so many callers, and its first seat, which has the number 0 and all others to
    /// give away.
    ///
    /// Where there is no memory, the value comes back.
    pub fn new(
        alloc: Global,
        value: T,
        callers: u32,
    ) -> Result<(Turnstile<T>, Seat<T>), (NoMemory, T)>
        requires some { 0 < callers }
        requires stands { T.stands value value [] }
        ensures made { IfOk result (λ made. (made.0.first ≡ value)
            × (made.0.id.callers ≡ callers)) }
        ensures seat { IfOk result (λ made. made.1 ≡ first_seat made.0.id) }
        ensures spare { IfOk result (λ made. length made.1.spare + 1 ≡ callers) }
        ensures numbers { IfOk result (λ made. HasEachNumber made.1) }
        ensures err { IfErr result (λ fault. fault.1 ≡ value) }
    {
        let about = MadeWith {
            value: Snapshot::of(&value),
            callers,
        };
        let slots = filled_slot::<T, T::Entry>(alloc, value)?;
        let made: Result<
            (LockTable<T>, Place<T, T::Entry>),
            Refused<Option<Content<T, T::Entry>>, Global>,
        > = Table::new(alloc, &[0, 0], slots, &about);
        match made {
            Ok((table, place)) => {
                let seat = SeatOf {
                    place,
                    caller: 0,
                    spare: 1,
                    end: callers,
                };
                Ok((Turnstile { table }, seat))
            }
            Err(Refused { slots }) => Err((NoMemory, emptied_slot(slots))),
        }
    }

    /// Gives the seat's least spare number to a new seat.
    pub fn split(&self, seat: Seat<T>) -> (Seat<T>, Seat<T>)
        requires of { seat.lock ≡ self.now.id }
        requires spare { 0 < length seat.spare }
        // The spare numbers are rising, so the first is the least.
        ensures spare { seat.spare ≡ result.1.caller ∷ result.0.spare }
        ensures least { All (λ number. result.1.caller < number) result.0.spare }
        ensures kept { result.0 ≡ record seat { spare = result.0.spare } }
        ensures given { result.1 ≡ new_seat seat.lock result.1.caller [] }
        ensures numbers { HasNumbersOf seat result.0 result.1 }
    {
        let SeatOf {
            mut place,
            caller,
            spare,
            end,
        } = seat;
        let given = SeatOf {
            place: self.table.shared.split_seat::<GiveNumber>(&mut place),
            caller: spare,
            spare: end,
            end,
        };
        let kept = SeatOf {
            place,
            caller,
            spare: spare + 1,
            end,
        };
        (kept, given)
    }

    /// Joins the other seat's own, joined and spare numbers to the first seat, with their entries.
    pub fn join(&self, seat: Seat<T>, other: Seat<T>) -> Seat<T>
        requires of { seat.lock ≡ self.now.id }
        requires other { other.lock ≡ self.now.id }
        ensures seat { result ≡ joined_seat seat other }
        ensures numbers { HasNumbersOf result seat other }
    {
        let SeatOf {
            mut place,
            caller,
            spare,
            end,
        } = seat;
        let SeatOf {
            place: theirs,
            caller: _,
            spare: their_spare,
            end: _,
        } = other;
        let table = &self.table.shared;
        table.join_seat::<TakeNumbers>(&mut place, theirs);
        // This shows that one of the two seats had no spare number.
        table.load::<CountNumbers>(&mut place, 0);
        SeatOf {
            place,
            caller,
            spare: spare_of_both(spare, their_spare, end),
            end,
        }
    }

    /// Draws a ticket, and waits until it is served.
    ///
    /// That it ever is isn't promised. A thread that waits sleeps until a turn is passed on.
    pub fn enter<R: Wait>(&self, rt: &R, seat: Seat<T>, link: Link<T::Entry>) -> Held<T>
        requires of { seat.lock ≡ self.now.id }
        ensures seat { result.seat ≡ seat }
        ensures entry { result.entry ≡ link }
        ensures stands { T.stands self.now.first result.value result.before }
        // So what the seat knows of each of its numbers is that number's entries so far.
        ensures entries { Recalls T.caller result.before seat }
    {
        let SeatOf {
            mut place,
            caller,
            spare,
            end,
        } = seat;
        let table = &self.table.shared;
        let ticket = table.fetch_add::<DrawTicket>(&mut place, 0, 1);
        let Content { value, chain } = wait::<T, R, Brand>(rt, table, &mut place, ticket);
        HeldOf {
            place,
            caller,
            spare,
            end,
            chain,
            value,
            link,
        }
    }

    /// Hangs the entry at the chain's end, puts the value back, and passes the turn on.
    ///
    /// The receipt has the entry's place, which is the ticket. It takes no memory.
    pub fn leave(&self, held: Held<T>) -> (Seat<T>, Receipt)
        requires of { held.seat.lock ≡ self.now.id }
        requires caller { T.caller held.entry ≡ held.seat.caller }
        requires stands { T.stands self.now.first held.value (held.before ++ held.entry ∷ []) }
        ensures seat { result.0 ≡ seat_after held.seat held.before held.entry }
        ensures place { result.1.place ≡ length held.before % 2 ^ 64 }
    {
        let HeldOf {
            mut place,
            caller,
            spare,
            end,
            chain,
            value,
            link,
        } = held;
        let ticket = pass_on(&self.table.shared, &mut place, value, chain, link);
        let seat = SeatOf {
            place,
            caller,
            spare,
            end,
        };
        (seat, Receipt { place: ticket })
    }

    /// Ends the lock, and gives its value with the chain of all entries.
    pub fn close(self, seat: Seat<T>) -> (T, Chain<T::Entry>)
        requires of { seat.lock ≡ self.id }
        requires numbers { HasEachNumber seat }
        ensures stands { T.stands self.first result.0 result.1 }
        ensures entries { Recalls T.caller result.1 seat }
        // So no entry is of a number that the seat doesn't know.
        ensures callers { All (λ entry. T.caller entry < self.id.callers) result.1 }
    {
        let Turnstile { table } = self;
        let SeatOf {
            place,
            caller: _,
            spare: _,
            end: _,
        } = seat;
        let Content { value, chain } = last_content(table, place);
        (value, chain)
    }
}
