//! Openings of an account between its turns.

use crate::support::{Ask, Outcome, check, share_of};
use mem_share::Fail;
use std::alloc::Global;

// What is asked, in this order, and what is answered.
#[rattlefmt::skip]
const ROWS: [(Ask, &str); 29] = [
    (Ask::Open, "no home, 0 factors, 0 files, 0 sessions"),
    (Ask::Create, "ok"),
    (Ask::Open, "a home, 0 factors, 0 files, 0 sessions"),
    (Ask::Create, "exists"),
    (Ask::StartSession, "started"),
    (Ask::AddPassword("main", "first secret"), "ok"),
    (Ask::Mount, "ok"),
    (Ask::PutFile("list", "milk"), "ok"),
    (Ask::Open, "a home, 1 factors, 1 files, 0 sessions"),
    (Ask::Mount, "unknown session"),
    (Ask::GetFile("list"), "not mounted"),
    (Ask::StartSession, "started"),
    (Ask::Authenticate("main", "another"), "wrong"),
    (Ask::Authenticate("main", "first secret"), "right"),
    (Ask::Mount, "ok"),
    (Ask::GetFile("list"), "milk"),
    (Ask::UpdatePassword("main", "second secret"), "ok"),
    (Ask::AddPassword("spare", "third secret"), "ok"),
    (Ask::ListFactors, "2 factors"),
    (Ask::ListFiles, "1 files"),
    (Ask::RemoveFactor("main"), "ok"),
    (Ask::RemoveFactor("spare"), "last password"),
    (Ask::Unmount, "ok"),
    (Ask::ExtendSession, "extended"),
    (Ask::EndSession, "ok"),
    (Ask::Open, "a home, 1 factors, 1 files, 0 sessions"),
    (Ask::StartSession, "started"),
    (Ask::Authenticate("spare", "third secret"), "right"),
    (Ask::Mount, "ok"),
];

// The number of the call that puts the stash of a new home: an opening of nothing makes three calls.
const STASH_PUT: u64 = 4;

// What the second create answers, by whether the first one's failed change was done.
const NEXT_TURNS: [(bool, &str); 2] = [(false, "ok"), (true, "exists")];

// What an opening after the failed create finds, by whether its change was done.
#[rattlefmt::skip]
const NEXT_OPENINGS: [(bool, &str); 2] = [
    (false, "no home, 0 factors, 0 files, 0 sessions"),
    (true, "a home, 0 factors, 0 files, 0 sessions"),
];

// A create whose put fails, and what is answered then.
fn check_after_fault(alloc: Global, done: bool, next: (Ask, &'static str)) -> Outcome {
    let call = STASH_PUT;
    let share = share_of(alloc, &[Fail { call, done }])?;
    check(alloc, share, &[(Ask::Create, "storage fault"), next])
}

#[test]
fn a_failed_create_is_settled_by_the_next_turn_and_by_an_opening(rt: HostRuntime) -> Outcome {
    for (done, answer) in NEXT_TURNS {
        check_after_fault(rt.alloc(), done, (Ask::Create, answer))?;
    }
    for (done, answer) in NEXT_OPENINGS {
        check_after_fault(rt.alloc(), done, (Ask::Open, answer))?;
    }
    Ok(())
}

#[test]
fn an_account_opens_again_as_its_turns_left_it(rt: HostRuntime) -> Outcome {
    let share = share_of(rt.alloc(), &[])?;
    check(rt.alloc(), share, &ROWS)
}
