//! What no contract says.
use shared_sum::{Caller, Sum, add_on_threads, closed, lock_after_turns};
use std::alloc::Global;
use std::test::Fail;

// Each turn of each caller, with the caller's number and the place that its receipt says.
fn told_places(alloc: Global, all: &[Caller]) -> Option<Vec<(u32, u64, u64)>> {
    let mut told = Vec::new(alloc);
    for caller in all {
        let seat = caller.seat.as_ref()?;
        for (turn, place) in caller.places.iter().enumerate() {
            told.push((seat.caller(), turn as u64, *place)).ok()?;
        }
    }
    Some(told)
}

#[test]
fn each_turn_has_its_entry_at_the_place_that_its_receipt_says(rt: HostRuntime) -> Result<(), Fail> {
    for (callers, turns) in [(1u32, 1u32), (2, 100), (16, 10)] {
        let first = Sum { total: 7 };
        let Some((lock, all)) = lock_after_turns(&rt, rt.alloc(), first, callers, turns) else {
            panic!(rt; "no memory for the turns of {callers} callers")
        };
        let Some(told) = told_places(rt.alloc(), all.as_slice()) else {
            panic!(rt; "no memory for the places")
        };
        let Some((_sum, chain)) = closed(lock, all) else {
            panic!(rt; "there are no callers")
        };
        let Ok(entries) = chain.in_order(rt.alloc()) else {
            panic!(rt; "no memory for the order")
        };
        // There are as many turns as places, and no two turns are alike: so each place is told once.
        let count = callers as u64 * turns as u64;
        assert!(rt; entries.len() as u64 == count && told.len() as u64 == count);
        for (caller, turn, place) in told.iter() {
            let entry = entries.get(*place as usize);
            assert!(rt; entry.is_some_and(|entry| entry.caller == *caller));
            assert!(rt; entry.is_some_and(|entry| entry.amount == *turn));
        }
    }
    Ok(())
}

#[test]
fn each_thread_leaves_its_entries_in_its_order(rt: HostRuntime) -> Result<(), Fail> {
    // callers, turns of each, and the sum from 7 on
    let table = [(1u32, 1u32, 7u64), (2, 100, 9907), (16, 10, 727)];
    for (callers, turns, total) in table {
        let first = Sum { total: 7 };
        let Some((sum, chain)) = add_on_threads(&rt, rt.alloc(), first, callers, turns) else {
            panic!(rt; "no memory for {callers} callers")
        };
        let Ok(entries) = chain.in_order(rt.alloc()) else {
            panic!(rt; "no memory for the order")
        };
        assert!(rt; entries.len() as u64 == callers as u64 * turns as u64);
        assert!(rt; sum.total == total && entries.last().is_some_and(|last| last.total == total));
        for caller in 0..callers {
            let mut own = entries.iter().filter(|entry| entry.caller == caller);
            for amount in 0..turns as u64 {
                assert!(rt; own.next().is_some_and(|entry| entry.amount == amount));
            }
            assert!(rt; own.next().is_none());
        }
    }
    Ok(())
}
