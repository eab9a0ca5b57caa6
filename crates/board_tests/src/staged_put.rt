//! A staged put and a removal that a crash or a fault stops, by a table of all of them.

use crate::support::{Outcome, board_of, has};
use ct_bytes::NoMemory;
use fault_count::Failed;
use mem_board::{Fail, MemBoard};
use std::alloc::Global;
use std::test;

// A board with the file `a` of these bytes, or without it where they are `-`.
fn board_with(alloc: Global, old: &str, fails: &[Fail]) -> Result<MemBoard, NoMemory> {
    if old == "-" {
        board_of(alloc, &[], fails)
    } else {
        board_of(alloc, &[("a", old)], fails)
    }
}

// Puts the file `a`, or, where the bytes are `-`, removes it.
fn put(board: &mut MemBoard, new: &str) -> Result<(), Failed> {
    if new == "-" {
        staged_file::remove(board, "a")
    } else {
        staged_file::put(board, "a", new.as_bytes())
    }
}

// How many of the images that a crash at a tick leaves have the old file, the new one, or another.
#[derive(Drop)]
struct Counts {
    old: u64,
    new: u64,
    other: u64,
}

// Counts the images for each pick below 16.
fn count(
    alloc: Global,
    board: &MemBoard,
    tick: u64,
    old: &str,
    new: &str,
) -> Result<Counts, test::Fail> {
    let mut counts = Counts {
        old: 0,
        new: 0,
        other: 0,
    };
    if tick > board.ticks() {
        return Err(test::Fail::new("there was no such tick"));
    }
    for pick in 0..16u64 {
        let mut left = board.crash_at(alloc, tick, pick)?;
        if has(alloc, &mut left, "a", old)? {
            counts.old = counts.old.saturating_add(1);
        } else if has(alloc, &mut left, "a", new)? {
            counts.new = counts.new.saturating_add(1);
        } else {
            counts.other = counts.other.saturating_add(1);
        }
    }
    Ok(counts)
}

// At each tick a crash leaves the old file or the new one, at the first tick the old one alone, and
// after `Ok` at the last tick the new one alone.
fn check(alloc: Global, old: &str, new: &str, fails: &[Fail]) -> Outcome {
    let mut board = board_with(alloc, old, fails)?;
    let done = put(&mut board, new).is_ok();
    if done != fails.is_empty() {
        return Err(test::Fail::new("a listed call must fail"));
    }
    let last = board.ticks();
    for tick in 0..last.saturating_add(1) {
        let counts = count(alloc, &board, tick, old, new)?;
        let torn = counts.other > 0 || tick == 0 && counts.new > 0;
        if torn || tick == last && done && counts.old > 0 {
            return Err(test::Fail::new(format_args!("{old} to {new} at tick {tick}")));
        }
    }
    Ok(())
}

#[test]
fn a_crash_at_any_tick_leaves_the_old_file_or_the_new_one(rt: HostRuntime) -> Outcome {
    for (old, new) in [("-", "entire"), ("old", "entire"), ("old", "-")] {
        check(rt.alloc(), old, new, &[])?;
    }
    Ok(())
}

#[test]
fn so_does_a_fault_at_any_call(rt: HostRuntime) -> Outcome {
    for (old, new, calls) in [("-", "entire", 4), ("old", "entire", 4), ("old", "-", 2)] {
        for call in 1..calls + 1u64 {
            for done in [false, true] {
                check(rt.alloc(), old, new, &[Fail { call, done }])?;
            }
        }
    }
    Ok(())
}

#[test]
fn both_outcomes_of_a_rename_are_there_until_the_directory_is_synced(rt: HostRuntime) -> Outcome {
    let alloc = rt.alloc();
    let mut board = board_with(alloc, "old", &[])?;
    put(&mut board, "entire")?;
    let renamed = count(alloc, &board, 3, "old", "entire")?;
    assert!(rt; renamed.old > 0 && renamed.new > 0);
    let synced = count(alloc, &board, 4, "old", "entire")?;
    assert_eq!(rt; synced.new, 16);
    Ok(())
}
