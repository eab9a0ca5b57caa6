//! Eight calls of which one fails, at each call of the board, its change done or not.

use crate::support::{
    MOST, Opened, Outcome, STEPS, Step, accounts_found, first_board, shown_after,
};
use cabinet::CabinetFault;
use mem_board::Fail;
use std::alloc::Global;
use std::test;

// After a failed call its change is done or not, and the call can be made again.
fn check_failed(alloc: Global, opened: &mut Opened, step: Step, ended: usize) -> Outcome {
    let shown = opened.shown(alloc)?;
    let text = shown.as_str();
    if text != shown_after(ended) && text != shown_after(ended.saturating_add(1)) {
        return Err(test::Fail::new(format_args!("{text} after {ended} calls and a fault")));
    }
    opened.make(step)?;
    Ok(())
}

// Makes the eight calls, each that fails a second time. Exactly one fails.
fn check_fault(alloc: Global, fail: Fail) -> Outcome {
    let mut opened = Opened::with_fails(alloc, &[fail])?;
    let mut failed = 0u64;
    for (ended, (step, shown)) in STEPS.iter().enumerate() {
        if opened.make(*step).is_err() {
            failed = failed.saturating_add(1);
            check_failed(alloc, &mut opened, *step, ended)?;
            let text = opened.shown(alloc)?;
            if text.as_str() != *shown {
                return Err(test::Fail::new(text.as_str()));
            }
        }
    }
    if failed != 1 || opened.shown(alloc)?.as_str() != shown_after(8) {
        return Err(test::Fail::new(format_args!("call {}, done {}", fail.call, fail.done)));
    }
    Ok(())
}

// Makes calls up to the first that fails.
fn make_to_a_fault(opened: &mut Opened) {
    for (step, _) in STEPS {
        if opened.make(step).is_err() {
            return;
        }
    }
}

// After a failed call and a settling each image has what is there.
fn check_settled(alloc: Global, fail: Fail) -> Outcome {
    let mut opened = Opened::with_fails(alloc, &[fail])?;
    make_to_a_fault(&mut opened);
    opened.settle()?;
    let shown = opened.shown(alloc)?;
    let board = opened.into_board();
    for pick in 0..4u64 {
        let image = board.crash_at(alloc, board.ticks(), pick)?;
        if Opened::over(alloc, image)?.shown(alloc)?.as_str() != shown.as_str() {
            return Err(test::Fail::new(shown.as_str()));
        }
    }
    Ok(())
}

// An opening lists, removes the temporary file and syncs the directory. The eight calls make 22 of the board's.
const FIRST: u64 = 4;

const BEHIND: u64 = 26;

#[test]
fn a_failed_call_is_done_or_not_and_can_be_made_again(rt: HostRuntime) -> Outcome {
    for call in FIRST..BEHIND {
        for done in [false, true] {
            check_fault(rt.alloc(), Fail { call, done })?;
        }
    }
    Ok(())
}

#[test]
fn after_a_settling_each_image_has_what_is_there(rt: HostRuntime) -> Outcome {
    for call in FIRST..BEHIND {
        for done in [false, true] {
            check_settled(rt.alloc(), Fail { call, done })?;
        }
    }
    Ok(())
}

#[test]
fn an_opening_fails_at_each_of_its_calls(rt: HostRuntime) -> Outcome {
    for call in 1..FIRST {
        for done in [false, true] {
            let board = first_board(rt.alloc(), &[Fail { call, done }])?;
            assert_eq!(rt;
                accounts_found(rt.alloc(), board, MOST),
                Err(CabinetFault::Failed)
            );
        }
    }
    Ok(())
}
