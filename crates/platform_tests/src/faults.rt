//! Ten steps of which one fails, at each call of the board, its change done or not.

use crate::support::{
    Change, NAMED, Outcome, STEPS, check_others, first_board, make, opened, shown, shown_after,
    shows,
};
use mem_board::{Fail, MemBoard};
use platform_core::{OpenFault, Platform};
use std::alloc::Global;
use std::test;

// An opening lists twice, removes the temporary file and syncs the directory twice. A put makes four of the board's
// calls and a removal two: the ten steps make 34.
const FIRST: u64 = 6;

const BEHIND: u64 = 40;

// After a failed step its account has it done or not, and the other accounts are as they were.
fn check_failed(
    alloc: Global,
    platform: &mut Platform<MemBoard>,
    ended: usize,
) -> Result<(), test::Fail> {
    if shows(alloc, platform, ended)? || shows(alloc, platform, ended.saturating_add(1))? {
        return Ok(());
    }
    Err(test::Fail::new(format_args!("after {ended} steps and a fault")))
}

// Makes one step, a second time where it failed. It says whether it failed.
fn make_sure(
    alloc: Global,
    platform: &mut Platform<MemBoard>,
    ended: usize,
    account: u8,
    change: Change,
) -> Result<bool, test::Fail> {
    if make(alloc, platform, account, change)? {
        return Ok(false);
    }
    check_failed(alloc, platform, ended)?;
    if !make(alloc, platform, account, change)? {
        return Err(test::Fail::new("the step can be made again"));
    }
    Ok(true)
}

// Makes the ten steps, each that fails a second time. Exactly one fails.
fn check_fault(alloc: Global, fail: Fail) -> Outcome {
    let mut platform = opened(alloc, first_board(alloc, &[fail])?)?;
    let mut failed = 0u64;
    for (ended, (account, change, _)) in STEPS.iter().enumerate() {
        if make_sure(alloc, &mut platform, ended, *account, *change)? {
            failed = failed.saturating_add(1);
        }
    }
    if failed != 1 || !shows(alloc, &mut platform, 10)? {
        return Err(test::Fail::new(format_args!("call {}, done {}", fail.call, fail.done)));
    }
    check_others(alloc, &mut platform.into_board())
}

// Makes steps up to the first that fails.
fn make_to_a_fault(alloc: Global, platform: &mut Platform<MemBoard>) -> Outcome {
    for (account, change, _) in STEPS {
        if !make(alloc, platform, account, change)? {
            return Ok(());
        }
    }
    Err(test::Fail::new("a step fails"))
}

// What all accounts have, as text.
fn all_shown(alloc: Global, platform: &mut Platform<MemBoard>) -> Result<String, test::Fail> {
    let mut text = String::new(alloc);
    for account in 0..3u8 {
        let own = shown(alloc, platform, account)?;
        text.push_str(own.as_str())?;
    }
    Ok(text)
}

// Once another step has come after a failed one, each image has what is there.
fn check_settled(alloc: Global, fail: Fail) -> Outcome {
    let mut platform = opened(alloc, first_board(alloc, &[fail])?)?;
    make_to_a_fault(alloc, &mut platform)?;
    let told = all_shown(alloc, &mut platform)?;
    let board = platform.into_board();
    for pick in 0..4u64 {
        let image = board.crash_at(alloc, board.ticks(), pick)?;
        let found = all_shown(alloc, &mut opened(alloc, image)?)?;
        if found.as_str() != told.as_str() {
            return Err(test::Fail::new(told.as_str()));
        }
    }
    Ok(())
}

// Where the settling after a failed step fails as well, that step fails and its change isn't begun.
fn check_twice(alloc: Global, done: bool) -> Outcome {
    // The last call of the first step's put, and the next one, which is a sync.
    let fails = [Fail { call: 9, done }, Fail { call: 10, done }];
    let mut platform = opened(alloc, first_board(alloc, &fails)?)?;
    for (account, change, _) in STEPS.iter().take(2) {
        if make(alloc, &mut platform, *account, *change)? {
            return Err(test::Fail::new("both steps fail"));
        }
    }
    let text = shown(alloc, &mut platform, 0)?;
    if text.as_str() != "" && text.as_str() != shown_after(0, 1) {
        return Err(test::Fail::new(text.as_str()));
    }
    Ok(())
}

#[test]
fn a_failed_step_is_done_or_not_and_can_be_made_again(rt: HostRuntime) -> Outcome {
    for call in FIRST..BEHIND {
        for done in [false, true] {
            check_fault(rt.alloc(), Fail { call, done })?;
        }
    }
    Ok(())
}

#[test]
fn the_step_after_a_failed_one_settles(rt: HostRuntime) -> Outcome {
    for call in FIRST..BEHIND {
        for done in [false, true] {
            check_settled(rt.alloc(), Fail { call, done })?;
        }
    }
    Ok(())
}

#[test]
fn a_step_whose_settling_fails_is_not_begun(rt: HostRuntime) -> Outcome {
    for done in [false, true] {
        check_twice(rt.alloc(), done)?;
    }
    Ok(())
}

#[test]
fn an_opening_fails_at_each_of_its_calls(rt: HostRuntime) -> Outcome {
    for call in 1..FIRST {
        for done in [false, true] {
            let board = first_board(rt.alloc(), &[Fail { call, done }])?;
            match opened(rt.alloc(), board) {
                Err(OpenFault::Failed) => {}
                _ => return Err(test::Fail::new(format_args!("call {call} of the opening"))),
            }
        }
    }
    assert_eq!(rt; NAMED.len(), 3);
    Ok(())
}
