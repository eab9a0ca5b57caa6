//! Ten steps of three accounts that a crash stops at each tick.

use crate::support::{Outcome, STEPS, check_others, first_board, make, opened, shows};
use mem_board::MemBoard;
use std::alloc::Global;
use std::test;

// The board after so many of the steps.
fn board_after(alloc: Global, count: usize) -> Result<MemBoard, test::Fail> {
    let mut platform = opened(alloc, first_board(alloc, &[])?)?;
    for (account, change, _) in STEPS.iter().take(count) {
        if !make(alloc, &mut platform, *account, *change)? {
            return Err(test::Fail::new("no step fails"));
        }
    }
    Ok(platform.into_board())
}

// The tick at the end of each step.
fn ends(alloc: Global) -> Result<Vec<u64>, test::Fail> {
    let mut ends = Vec::new(alloc);
    for count in 1..11usize {
        ends.push(board_after(alloc, count)?.ticks())?;
    }
    Ok(ends)
}

// Each account has in an image what its own steps lead to among those that had ended, or with the one in flight.
fn check_image(alloc: Global, image: MemBoard, ended: usize) -> Outcome {
    let mut platform = opened(alloc, image)?;
    if !shows(alloc, &mut platform, ended)?
        && !shows(alloc, &mut platform, ended.saturating_add(1))?
    {
        return Err(test::Fail::new(format_args!("an image after {ended} steps")));
    }
    check_others(alloc, &mut platform.into_board())
}

// The images that a crash at a tick leaves, for four picks.
fn check_tick(alloc: Global, board: &MemBoard, tick: u64, ended: usize) -> Outcome {
    if tick > board.ticks() {
        return Err(test::Fail::new("there was no such tick"));
    }
    for pick in 0..4u64 {
        check_image(alloc, board.crash_at(alloc, tick, pick)?, ended)?;
    }
    Ok(())
}

#[test]
fn a_crash_at_any_tick_leaves_of_each_account_its_own_steps(rt: HostRuntime) -> Outcome {
    let alloc = rt.alloc();
    let board = board_after(alloc, 10)?;
    let ends = ends(alloc)?;
    for tick in 0..board.ticks().saturating_add(1) {
        let ended = ends.iter().filter(|end| **end <= tick).count();
        check_tick(alloc, &board, tick, ended)?;
    }
    Ok(())
}

#[test]
fn once_the_last_step_has_ended_each_image_has_all(rt: HostRuntime) -> Outcome {
    let alloc = rt.alloc();
    let board = board_after(alloc, 10)?;
    check_tick(alloc, &board, board.ticks(), 10)
}
