//! A client's seat of a ledger's lock.

ghost use Rattle.std.specs.Prelude.{◌≡◌, Some};
ghost use Rattle.client_line_tests.specs.Ledgers.{lock_at};

use crate::ledger::{Ledger, answer_to};
use account_machine::{Answer, Entry, Request, Token, Told, Turn};
use ct_bytes::NoMemory;
use pw_types::cut_moment;
use request_turns::TurnSeat;
use std::alloc::Global;
use std::sync::Wait;
use turn_lock::{Link, Seat, Turnstile};

/// A seat with the lock that it is of.
#[derive(Drop)]
pub struct LedgerSeat<'a> {
    lock: &'a Turnstile<Ledger>,
    // It is away only during a turn.
    seat: Option<Seat<Ledger>>,
    ghost of: { lock_at seat ≡ Some lock.now.id },
}

impl<'a> LedgerSeat<'a> {
    /// The seat of this lock.
    pub fn new(lock: &'a Turnstile<Ledger>, seat: Seat<Ledger>) -> LedgerSeat<'a>
        requires { seat.lock ≡ lock.now.id }
    {
        LedgerSeat {
            lock,
            seat: Some(seat),
        }
    }
}

impl<'a> TurnSeat for LedgerSeat<'a> {
    ghost use Rattle.client_line_tests.specs.Ledgers.{bare_at, own_at};

    type Blank = Link<Entry>;

    ghost bare = { λ s. bare_at s.lock.now.id s.seat };

    ghost own = { λ s. own_at s.seat };

    fn blank(&self, alloc: Global) -> Result<Link<Entry>, NoMemory> {
        let token = Token {
            number: 0,
            tail: [0; 16],
        };
        let entry = Entry {
            caller: 0,
            given: 0,
            moment: 0,
            told: Told::Settled,
            turn: Turn::Clear(token),
            answer: Answer::NoMemory,
            place: 0,
        };
        Link::new(alloc, entry)
    }

    fn prepare(&mut self, alloc: Global, request: &Request) -> Result<(), NoMemory> {
        let _ = alloc;
        let _ = request;
        Ok(())
    }

    fn turn<R: Wait>(
        &mut self,
        rt: &R,
        alloc: Global,
        blank: Link<Entry>,
        turn: Turn,
        moment: u64,
    ) -> Answer {
        let _ = alloc;
        let told = answer_to(&turn);
        let answer = answer_to(&turn);
        let seat = self.seat.take().unwrap();
        let caller = seat.caller();
        let given = cut_moment(moment);
        let mut held = self.lock.enter(rt, seat, blank);
        let ledger = held.value();
        ledger.turns = ledger.turns.wrapping_add(1);
        let entry = held.entry();
        entry.caller = caller;
        entry.given = given;
        entry.moment = given;
        entry.turn = turn;
        entry.answer = answer;
        let (seat, _receipt) = self.lock.leave(held);
        self.seat = Some(seat);
        told
    }
}
