//! Eight calls that a crash stops at each tick, by a table of all of them.

use crate::support::{Opened, Outcome, STEPS, shown_after};
use board_model::Board;
use mem_board::MemBoard;
use std::alloc::Global;
use std::test;

// The board after so many of the calls.
fn board_after(alloc: Global, count: usize) -> Result<MemBoard, test::Fail> {
    let mut opened = Opened::with_fails(alloc, &[])?;
    for (step, _) in STEPS.iter().take(count) {
        opened.make(*step)?;
    }
    Ok(opened.into_board())
}

// The tick at the end of each call.
fn ends(alloc: Global) -> Result<Vec<u64>, test::Fail> {
    let mut ends = Vec::new(alloc);
    for count in 1..9usize {
        ends.push(board_after(alloc, count)?.ticks())?;
    }
    Ok(ends)
}

// The files that are no record's are as they were, and none is temporary.
fn check_others(alloc: Global, board: &mut MemBoard) -> Outcome {
    for name in ["ann.fac.main.01", "notes"] {
        match board.read(alloc, name, 100)? {
            Some(bytes) if bytes.as_slice() == b"kept".as_slice() => {}
            _ => return Err(test::Fail::new(name)),
        }
    }
    for name in board.list(alloc)? {
        if name.as_str().starts_with("tmp-") {
            return Err(test::Fail::new(name.as_str()));
        }
    }
    Ok(())
}

// An image opens to what was there after the calls that had ended, or after one more.
fn check_image(alloc: Global, image: MemBoard, ended: usize) -> Outcome {
    let mut opened = Opened::over(alloc, image)?;
    let shown = opened.shown(alloc)?;
    let text = shown.as_str();
    if text != shown_after(ended) && text != shown_after(ended.saturating_add(1)) {
        return Err(test::Fail::new(format_args!("{text} after {ended} calls")));
    }
    check_others(alloc, &mut opened.into_board())
}

// The images that a crash at a tick leaves, for four picks.
fn check_tick(alloc: Global, board: &MemBoard, tick: u64, ended: usize) -> Outcome {
    if tick > board.ticks() {
        return Err(test::Fail::new("there was no such tick"));
    }
    for pick in 0..4u64 {
        check_image(alloc, board.crash_at(alloc, tick, pick)?, ended)?;
    }
    Ok(())
}

#[test]
fn a_crash_at_any_tick_leaves_the_calls_that_had_ended_or_one_more(rt: HostRuntime) -> Outcome {
    let alloc = rt.alloc();
    let board = board_after(alloc, 8)?;
    let ends = ends(alloc)?;
    for tick in 0..board.ticks().saturating_add(1) {
        let ended = ends.iter().filter(|end| **end <= tick).count();
        check_tick(alloc, &board, tick, ended)?;
    }
    Ok(())
}

#[test]
fn once_the_last_call_has_ended_each_image_has_all(rt: HostRuntime) -> Outcome {
    let alloc = rt.alloc();
    let board = board_after(alloc, 8)?;
    assert_eq!(rt; board.ticks(), 24);
    check_tick(alloc, &board, board.ticks(), 8)
}
