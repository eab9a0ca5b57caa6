//! The callers' seats, given out and joined again.
ghost use Rattle.std.specs.Prelude.{◌≡◌, ℕ, ◌+◌, All, IfSome, IfNone, IfOk, length, []};
ghost use Rattle.turn_lock.specs.Lists.{count_of};
ghost use Rattle.turn_lock.specs.Seats.{numbers_of};
ghost use Rattle.shared_sum.specs.Callers.{HasSeat, IsNewCaller, HasKnownTurns, KnowsTurns, count_in};

use crate::callers::Caller;
use crate::sum::Sum;
use std::alloc::Global;
use turn_lock::{NoMemory, Seat, Turnstile};

/// Splits the first seat into one for each caller.
pub fn callers_of(
    alloc: Global,
    lock: &Turnstile<Sum>,
    first: Seat<Sum>,
    callers: u32,
    turns: u32,
) -> Result<Vec<Caller>, NoMemory>
    requires of { first.lock ≡ lock.now.id }
    requires spare { length first.spare + 1 ≡ callers }
    ensures seats { IfOk result (λ all. All (HasSeat lock.now.id) all.items) }
    // Where the first seat knows no entry, no caller's seat does.
    ensures fresh { first.own ≡ []
        → first.joined ≡ []
        → IfOk result (λ all. All (IsNewCaller turns) all.items) }
    // No number is lost, and none is there twice.
    ensures numbers { IfOk result (λ all. (number : ℕ)
        → count_in number all.items ≡ count_of number (numbers_of first)) }
{
    let mut all = Vec::new(alloc);
    let mut seat = first;
    for number in 1..callers {
        let (kept, given) = lock.split(seat);
        all.push(Caller {
            seat: Some(given),
            turns,
            places: Vec::new(alloc),
        })?;
        seat = kept;
    }
    all.push(Caller {
        seat: Some(seat),
        turns,
        places: Vec::new(alloc),
    })?;
    Ok(all)
}

/// Joins the seats of all callers, where there is one.
pub fn joined_seat_of(lock: &Turnstile<Sum>, mut all: Vec<Caller>) -> Option<Seat<Sum>>
    requires { All (HasSeat lock.now.id) all.items }
    ensures of { IfSome result (λ seat. seat.lock ≡ lock.now.id) }
    ensures none { IfNone result (length all.items ≡ 0) }
    ensures numbers { IfSome result (λ seat. (number : ℕ)
        → count_of number (numbers_of seat) ≡ count_in number all.items) }
    // What each caller knows, the joined seat knows.
    ensures turns { IfSome result (λ seat. (turns : ℕ)
        → All (HasKnownTurns turns) all.items → KnowsTurns turns seat) }
{
    let last = all.pop()?;
    let mut seat = last.seat.unwrap();
    while let Some(caller) = all.pop() {
        seat = lock.join(seat, caller.seat.unwrap());
    }
    Some(seat)
}
