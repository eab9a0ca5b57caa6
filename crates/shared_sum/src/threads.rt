//! Callers on threads, from the first seat to the closed lock.
ghost use Rattle.std.specs.Prelude.{◌≡◌, ◌<◌, ℕ, true, All, IfSome, IfNone, OnOk, length};
ghost use Rattle.turn_lock.specs.Lists.{entries_of};
ghost use Rattle.shared_sum.specs.Callers.{HasSeat, HaveAllNumbers, EachKeepsNumbers, EachAfterTurns, HasAllTurns, HasKnownTurns, AreTurns};
ghost use Rattle.shared_sum.specs.Summed.{IsSumOf, caller_of};

use crate::callers::{Caller, add_turns};
use crate::seats::{callers_of, joined_seat_of};
use crate::sum::{Added, Sum};
use std::alloc::Global;
use std::sync::Wait;
use std::thread;
use std::thread::Threads;
use turn_lock::{Chain, NoMemory, Turnstile};

// Whether each caller has made all its turns.
fn have_all_turns(callers: &[Caller]) -> bool
    ensures { result ≡ true → All HasAllTurns callers.now }
{
    callers
        .iter()
        .all(|caller| caller.places.len() == caller.turns as usize)
}

/// Each caller makes its turns on a thread of its own, where threads can be made, and adds 0, 1, 2
/// and so on.
///
/// Without memory for all turns, some are not made.
pub fn add_all<R: Threads + Wait + Sync>(
    rt: &R,
    alloc: Global,
    lock: &Turnstile<Sum>,
    callers: &mut [Caller],
) -> Result<(), NoMemory>
    requires { All (HasSeat lock.now.id) callers.old }
    ensures seats { All (HasSeat lock.now.id) callers.new }
    ensures numbers { EachKeepsNumbers callers.old callers.new }
    ensures after { EachAfterTurns callers.old callers.new }
    ensures all { OnOk result (All HasAllTurns callers.new) }
{
    thread::for_each_mut(
        rt,
        callers,
        8,
        &|_, caller| { add_turns(rt, alloc, lock, caller) },
    );
    if have_all_turns(callers) {
        Ok(())
    } else {
        Err(NoMemory)
    }
}

/// A lock of a sum, whose callers have made their turns, each on a thread of its own.
///
/// Without memory for all turns there is none.
pub fn lock_after_turns<R: Threads + Wait + Sync>(
    rt: &R,
    alloc: Global,
    first: Sum,
    callers: u32,
    turns: u32,
) -> Option<(Turnstile<Sum>, Vec<Caller>)>
    requires { 0 < callers }
    ensures lock { IfSome result (λ made. (made.0.first ≡ first)
        × (made.0.id.callers ≡ callers)) }
    ensures seats { IfSome result (λ made. All (HasSeat made.0.id) made.1.items) }
    ensures numbers { IfSome result (λ made. HaveAllNumbers made.0.id made.1.items) }
    ensures turns { IfSome result (λ made. All (HasKnownTurns turns) made.1.items) }
{
    let Ok((lock, seat)) = Turnstile::new(alloc, first, callers) else {
        return None;
    };
    let Ok(mut all) = callers_of(alloc, &lock, seat, callers, turns) else {
        return None;
    };
    let Ok(()) = add_all(rt, alloc, &lock, all.as_mut_slice()) else {
        return None;
    };
    Some((lock, all))
}

/// Joins the callers' seats and closes the lock, where there are callers.
pub fn closed(lock: Turnstile<Sum>, all: Vec<Caller>) -> Option<(Sum, Chain<Added>)>
    requires seats { All (HasSeat lock.id) all.items }
    requires numbers { HaveAllNumbers lock.id all.items }
    ensures none { IfNone result (length all.items ≡ 0) }
    ensures sum { IfSome result (λ end. IsSumOf lock.first end.0 end.1) }
    ensures callers { IfSome result (λ end. All (λ entry. entry.caller < lock.id.callers) end.1) }
    // What each caller knows of its turns stands in the chain.
    ensures turns { IfSome result (λ end. (turns caller : ℕ)
        → All (HasKnownTurns turns) all.items
        → caller < lock.id.callers
        → AreTurns turns (entries_of caller_of caller end.1)) }
{
    let seat = joined_seat_of(&lock, all)?;
    Some(lock.close(seat))
}

/// So many callers, each with its turns on a thread of its own, and then the lock closed.
///
/// Without memory for all turns there is nothing.
pub fn add_on_threads<R: Threads + Wait + Sync>(
    rt: &R,
    alloc: Global,
    first: Sum,
    callers: u32,
    turns: u32,
) -> Option<(Sum, Chain<Added>)>
    requires { 0 < callers }
    ensures sum { IfSome result (λ end. IsSumOf first end.0 end.1) }
    ensures callers { IfSome result (λ end. All (λ entry. entry.caller < callers) end.1) }
    // Each caller has added 0, 1, 2 and so on, once for each turn.
    ensures turns { IfSome result (λ end. (caller : ℕ)
        → caller < callers → AreTurns turns (entries_of caller_of caller end.1)) }
{
    let (lock, all) = lock_after_turns(rt, alloc, first, callers, turns)?;
    closed(lock, all)
}
