//! A home of ledgers.

ghost use Rattle.std.specs.Prelude.{◌≡◌, true, length};
ghost use Rattle.request_turns.specs.Named.{are_apart};

use crate::ledger::Ledger;
use crate::seat::LedgerSeat;
use account_machine::{Answer, Request};
use client_lines::Home;
use ct_bytes::Text;
use request_turns::call_by_seats;
use std::alloc::Global;
use std::sync::Wait;
use turn_lock::Turnstile;

/// A home: its accounts' names, and their locks in the same order.
pub struct LedgerHome<'a> {
    names: &'a [Text],
    locks: &'a [Turnstile<Ledger>],
    ghost many: { length locks.now ≡ length names.now },
    ghost apart: { are_apart names.now ≡ true },
}

impl<'a> LedgerHome<'a> {
    /// A home of these accounts. No name comes twice.
    pub fn new(names: &'a [Text], locks: &'a [Turnstile<Ledger>]) -> LedgerHome<'a>
        requires many { length locks.now ≡ length names.now }
        requires apart { are_apart names.now ≡ true }
    {
        LedgerHome { names, locks }
    }
}

impl<'a> Home for LedgerHome<'a> {
    ghost use Rattle.std.specs.Prelude.{map, Some};
    ghost use Rattle.request_turns.specs.Named.{seats_seen};
    ghost use Rattle.client_line_tests.specs.Ledgers.{bare_at, caller_in, own_at};

    type Seat = Vec<LedgerSeat<'a>>;

    ghost pins = { λ home. true };

    ghost locks = { λ home. map (λ lock. lock.id) home.locks.now };

    ghost seen = { λ home seats. seats_seen (caller_in (map (λ s. bare_at s.lock.now.id s.seat) seats.items))
        home.names.now (map (λ s. own_at s.seat) seats.items) };

    ghost bare = { λ seats. map (λ bare. Some bare) (map (λ s. bare_at s.lock.now.id s.seat) seats.items) };

    fn has_pins(&self) -> bool {
        true
    }

    fn call<R: Wait>(
        &self,
        rt: &R,
        alloc: Global,
        seat: Vec<LedgerSeat<'a>>,
        request: &Request,
        moment: u64,
    ) -> (Vec<LedgerSeat<'a>>, Answer) {
        let mut seats = seat;
        let answer = call_by_seats(rt, alloc, self.names, &mut seats, request, moment);
        (seats, answer)
    }
}
