//! A request at the account that it asks.

ghost use Rattle.std.specs.Prelude.{◌≡◌, ℕ, Some, true, false, map, length, IfSome, IfNone};
ghost use Rattle.pw_types.specs.Moment.{cut_moment};
ghost use Rattle.account_machine.specs.Asked.{account_of};
ghost use Rattle.board_device.specs.Device.{seen_by};
ghost use Rattle.client_lines.specs.Seats.{AreSeatsOf};
ghost use Rattle.client_output.specs.Grown.{MakesTurns};
ghost use Rattle.client_output.specs.Output.{NamesPlainly, is_among};
ghost use Rattle.client_output.specs.Turns.{Makes};
ghost use Rattle.request_forms.specs.Formed.{IsFormedRequest};
ghost use Rattle.request_turns.specs.Named.{seats_seen};
ghost use Rattle.request_turns.specs.Taken.{Gives};
ghost use Rattle.home_seats.specs.Seats.{IsOpenLock, bare_at, lock_at, own_at};
ghost use Rattle.user_home.specs.Open.{bare_slot};

use crate::open_home::OpenHome;
use account_machine::{Answer, Request};
use board_device::BoardDevice;
use board_model::Board;
use client_lines::Home;
use client_seats::ClientSeats;
use home_locks::Account;
use home_seats::SeatAtLock;
use platform_lock::Shared;
use request_turns::take_turns;
use std::alloc::Global;
use std::sync::Wait;
use turn_lock::{Seat, Turnstile};
use turn_secrets::Kdf;
use user_accounts::UserTurns;

// What the turns at any account's lock are made with.
#[derive(Drop)]
struct Making<'a, B: Board + Drop, F: Drop> {
    shared: &'a Shared<BoardDevice<B>>,
    kdf: F,
    cost: u8,
}

// The turns of a request at this lock. The seat is out of its slot meanwhile.
fn take_turns_at<'a, R: Wait, B: Board + Drop, F: Kdf + Copy + Drop>(
    rt: &R,
    alloc: Global,
    making: Making<'a, B, F>,
    lock: &'a Turnstile<Account<UserTurns<B>>>,
    slot: &mut Option<Seat<Account<UserTurns<B>>>>,
    request: &Request,
    moment: u64,
) -> Answer
    requires open { IsOpenLock (seen_by B.faults making.shared.now.first.device) making.shared.now.id
        lock.now.first.era lock.now.first.seat lock.now.first.state }
    requires of { lock_at slot.old ≡ Some lock.now.id }
    requires formed { IsFormedRequest request.now }
    ensures bare { bare_slot slot.new ≡ bare_slot slot.old }
    ensures makes { Gives (Makes (bare_at lock.now.id slot.old).caller (cut_moment moment) request.now)
        (own_at slot.old) (own_at slot.new) result }
    ensures named { NamesPlainly result }
{
    let Making { shared, kdf, cost } = making;
    let own = slot.take().unwrap();
    let mut at = SeatAtLock::new(shared, lock, own, kdf, cost);
    let answer = take_turns(rt, alloc, &mut at, request, moment);
    *slot = Some(at.into_seat());
    answer
}

impl<'a, B: Board + Drop, F: Kdf + Copy + Drop> OpenHome<'a, B, F> {
    // The turns of a request at the account that it asks, where that is one of the home's.
    fn take_turns_among<R: Wait>(
        &self,
        rt: &R,
        alloc: Global,
        slots: &mut [Option<Seat<Account<UserTurns<B>>>>],
        request: &Request,
        moment: u64,
    ) -> Option<Answer>
        requires of { map lock_at slots.old ≡ map Some self.now.locks }
        requires formed { IsFormedRequest request.now }
        ensures many { length slots.old ≡ length self.now.names }
        ensures bare { map bare_slot slots.new ≡ map bare_slot slots.old }
        ensures none { IfNone result (slots.new ≡ slots.old) }
        ensures unknown { IfNone result (is_among (account_of request.now) self.now.names ≡ false) }
        ensures known { IfSome result (λ told. is_among (account_of request.now) self.now.names ≡ true) }
        ensures makes { IfSome result (λ told. (caller : ℕ)
            → AreSeatsOf self.now.locks caller (map bare_slot slots.old)
            → MakesTurns (seats_seen caller self.now.names (map own_at slots.old))
            (seats_seen caller self.now.names (map own_at slots.new)) request.now moment told) }
        ensures named { IfSome result (λ told. NamesPlainly told) }
    {
        let (name, names) = self.names.split_first()?;
        let (lock, locks) = self.locks.split_first().unwrap();
        let (slot, slots) = slots.split_first_mut().unwrap();
        if name == request.account() {
            let making = Making {
                shared: self.shared,
                kdf: self.kdf,
                cost: self.cost,
            };
            return Some(take_turns_at(rt, alloc, making, lock, slot, request, moment));
        }
        let others = OpenHome {
            shared: self.shared,
            names,
            locks,
            kdf: self.kdf,
            cost: self.cost,
        };
        others.take_turns_among(rt, alloc, slots, request, moment)
    }
}

impl<'a, B: Board + Drop, F: Kdf + Copy + Drop> Home for OpenHome<'a, B, F> {
    ghost use Rattle.std.specs.Prelude.{map, false};
    ghost use Rattle.request_turns.specs.Named.{seats_seen};
    ghost use Rattle.home_seats.specs.Seats.{own_at};
    ghost use Rattle.user_home.specs.Open.{bare_slot};

    type Seat = ClientSeats<Account<UserTurns<B>>>;

    ghost pins = { λ home. false };

    ghost locks = { λ home. home.locks };

    ghost seen = { λ home client. seats_seen client.number home.names (map own_at client.seats.items) };

    ghost bare = { λ client. map bare_slot client.seats.items };

    fn has_pins(&self) -> bool {
        false
    }

    fn call<R: Wait>(
        &self,
        rt: &R,
        alloc: Global,
        seat: ClientSeats<Account<UserTurns<B>>>,
        request: &Request,
        moment: u64,
    ) -> (ClientSeats<Account<UserTurns<B>>>, Answer) {
        let ClientSeats { number, mut seats } = seat;
        let answer = match self.take_turns_among(rt, alloc, seats.as_mut_slice(), request, moment) {
            Some(answer) => answer,
            None => Answer::UnknownAccount,
        };
        (ClientSeats { number, seats }, answer)
    }
}
