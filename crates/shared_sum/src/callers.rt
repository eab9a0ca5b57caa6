//! What callers do.
ghost use Rattle.std.specs.Prelude.{◌≡◌, IfSome, IfNone};
ghost use Rattle.turn_lock.specs.Seats.{numbers_of};
ghost use Rattle.shared_sum.specs.Callers.{HasSeat, KeepsNumbers, AddsEntry, MakesTurns, AfterTurns};

use crate::sum::{Added, Sum};
use std::alloc::Global;
use std::sync::Wait;
use turn_lock::{Link, Receipt, Seat, Turnstile};

/// Adds the amount in a turn of the seat. Without memory there is none, and no receipt.
pub fn add<R: Wait>(
    rt: &R,
    alloc: Global,
    lock: &Turnstile<Sum>,
    seat: Seat<Sum>,
    amount: u64,
) -> (Seat<Sum>, Option<Receipt>)
    requires of { seat.lock ≡ lock.now.id }
    ensures added { IfSome result.1 (λ receipt. AddsEntry seat result.0 amount receipt.place) }
    ensures none { IfNone result.1 (result.0 ≡ seat) }
    ensures lock { result.0.lock ≡ seat.lock }
    ensures numbers { numbers_of result.0 ≡ numbers_of seat }
{
    let caller = seat.caller();
    let entry = Added {
        caller,
        amount,
        total: 0,
    };
    let Ok(link) = Link::new(alloc, entry) else {
        return (seat, None);
    };
    let mut held = lock.enter(rt, seat, link);
    let sum = held.value();
    sum.total = sum.total.wrapping_add(amount);
    let total = sum.total;
    held.entry().total = total;
    let (seat, receipt) = lock.leave(held);
    (seat, Some(receipt))
}

/// A caller with its seat, how many turns it is to make, and where the entries of those that it has
/// made stand in the chain, as its receipts say.
#[derive(Drop)]
pub struct Caller {
    pub seat: Option<Seat<Sum>>,
    pub turns: u32,
    pub places: Vec<u64>,
}

// Adds in one turn as much as turns were made before. Without memory there is no turn.
fn add_turn<R: Wait>(
    rt: &R,
    alloc: Global,
    lock: &Turnstile<Sum>,
    seat: Seat<Sum>,
    places: &mut Vec<u64>,
) -> Seat<Sum>
    requires { seat.lock ≡ lock.now.id }
    ensures { MakesTurns seat result places.old.items places.new.items }
{
    // The room for the receipt comes first, so that no turn is made whose place is lost.
    if places.reserve(1).is_err() {
        return seat;
    }
    let (seat, told) = add(rt, alloc, lock, seat, places.len() as u64);
    if let Some(receipt) = told {
        places.push_reserved(receipt.place);
    }
    seat
}

// Makes the turns that are left.
pub(crate) fn add_turns<R: Wait>(rt: &R, alloc: Global, lock: &Turnstile<Sum>, caller: &mut Caller)
    requires { HasSeat lock.now.id caller.old }
    ensures seat { HasSeat lock.now.id caller.new }
    ensures numbers { KeepsNumbers caller.old caller.new }
    ensures after { AfterTurns caller.old caller.new }
{
    let mut seat = caller.seat.take().unwrap();
    for _ in caller.places.len()..caller.turns as usize {
        seat = add_turn(rt, alloc, lock, seat, &mut caller.places);
    }
    caller.seat = Some(seat);
}
