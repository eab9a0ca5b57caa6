//! A client's seat at an account's lock.

ghost use Rattle.std.specs.Prelude.{◌≡◌, Some};

use crate::keys::{key_for, prepare_key};
use crate::prepared::Prepared;
use account_machine::{Answer, Request, Turn};
use board_device::BoardDevice;
use board_model::Board;
use ct_bytes::NoMemory;
use home_locks::{Account, Entry, blank_entry, take_turn};
use platform_lock::Shared;
use pw_types::cut_moment;
use request_turns::TurnSeat;
use std::alloc::Global;
use std::marker::Model;
use std::sync::Wait;
use turn_lock::{Link, Seat, Turnstile};
use turn_meaning::TurnTaken;
use turn_secrets::Kdf;
use user_accounts::{TurnAsked, TurnTold, UserTurns};
use user_state::Seen;

/// A client's seat at an account's lock, for the turns of one request.
///
/// Between a look and its act it derives the act's key, while no lock is held.
#[derive(Drop)]
pub struct SeatAtLock<'a, B: Board + Drop, F: Drop> {
    shared: &'a Shared<BoardDevice<B>>,
    lock: &'a Turnstile<Account<UserTurns<B>>>,
    // It is away only during a turn.
    seat: Option<Seat<Account<UserTurns<B>>>>,
    kdf: F,
    // The cost exponent of new factors.
    cost: u8,
    // What the last look showed.
    seen: Option<Seen>,
    prepared: Option<Prepared>,
}

impl<'a, B: Board + Drop, F: Drop> Model for SeatAtLock<'a, B, F> {
    ghost use Rattle.std.specs.Prelude.{◌≡◌, Some};
    ghost use Rattle.board_device.specs.Device.{seen_by};
    ghost use Rattle.home_seats.specs.Seats.{AtLock, IsOpenLock, lock_at};

    ghost Value = { AtLock };

    ghost view = { λ at. record { lock = at.lock.now.id; seat = at.seat } };

    ghost invariant = { λ at. IsOpenLock (seen_by B.faults at.shared.now.first.device) at.shared.now.id
        at.lock.now.first.era at.lock.now.first.seat at.lock.now.first.state × (lock_at at.seat ≡ Some at.lock.now.id) };
}

impl<'a, B: Board + Drop, F: Drop> SeatAtLock<'a, B, F> {
    ghost use Rattle.std.specs.Prelude.{◌≡◌, Some};
    ghost use Rattle.board_device.specs.Device.{seen_by};
    ghost use Rattle.home_seats.specs.Seats.{IsOpenLock};

    /// A client's seat of this lock. `cost` is the cost exponent of new factors.
    pub fn new(
        shared: &'a Shared<BoardDevice<B>>,
        lock: &'a Turnstile<Account<UserTurns<B>>>,
        seat: Seat<Account<UserTurns<B>>>,
        kdf: F,
        cost: u8,
    ) -> SeatAtLock<'a, B, F>
        requires open { IsOpenLock (seen_by B.faults shared.now.first.device) shared.now.id lock.now.first.era
            lock.now.first.seat lock.now.first.state }
        requires of { seat.lock ≡ lock.now.id }
        ensures value { result ≡ record { lock = lock.now.id; seat = Some seat } }
    {
        SeatAtLock {
            shared,
            lock,
            seat: Some(seat),
            kdf,
            cost,
            seen: None,
            prepared: None,
        }
    }

    /// The seat, as it is now.
    pub fn into_seat(self) -> Seat<Account<UserTurns<B>>>
        ensures seat { self.entry.seat ≡ Some result }
    {
        self.seat.unwrap()
    }
}

impl<'a, B: Board + Drop, F: Kdf + Drop> TurnSeat for SeatAtLock<'a, B, F> {
    ghost use Rattle.home_seats.specs.Seats.{bare_at, own_at};

    type Blank = Link<Entry<TurnTaken>>;

    ghost bare = { λ at. bare_at at.lock at.seat };

    ghost own = { λ at. own_at at.seat };

    fn blank(&self, alloc: Global) -> Result<Link<Entry<TurnTaken>>, NoMemory> {
        blank_entry::<UserTurns<B>>(alloc)
    }

    fn prepare(&mut self, alloc: Global, request: &Request) -> Result<(), NoMemory> {
        if let Some(seen) = self.seen {
            self.prepared = prepare_key(&mut self.kdf, alloc, request, &seen, self.cost)?;
        }
        Ok(())
    }

    fn turn<R: Wait>(
        &mut self,
        rt: &R,
        alloc: Global,
        blank: Link<Entry<TurnTaken>>,
        turn: Turn,
        moment: u64,
    ) -> Answer {
        let derived = key_for(self.prepared.take(), &turn);
        let asked = TurnAsked::new(turn, derived, cut_moment(moment));
        let seat = self.seat.take().unwrap();
        let (seat, taken) = take_turn::<R, UserTurns<B>>(
            rt,
            alloc,
            self.shared,
            self.lock,
            seat,
            blank,
            asked,
        );
        self.seat = Some(seat);
        let TurnTold { answer, seen } = taken.told;
        self.seen = seen;
        answer
    }
}
