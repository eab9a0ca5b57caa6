//! The share in memory, call by call.

use crate::support::{Call, LES, Outcome, RESET, check, share_of};
use mem_share::Fail;
use std::alloc::Global;

#[test]
fn each_call_answers_on_its_happy_path(rt: HostRuntime) -> Outcome {
    let rows = [
        (Call::Names, ""),
        (Call::Get, "none"),
        (Call::Put("one"), "done"),
        (Call::Put("two"), "done"),
        (Call::Get, "two"),
        (Call::Insert, "label 0"),
        (Call::Names, "ann.stash m.leaf.00000 "),
        (Call::Look, "0 wrong"),
        (Call::Try(9), "wrong"),
        (Call::Look, "1 wrong"),
        (Call::Try(LES), "right"),
        (Call::Look, "0 wrong"),
        (Call::Try(9), "wrong"),
        (Call::Reset(9), "doesn't fit"),
        (Call::Look, "1 wrong"),
        (Call::Reset(RESET), "fits"),
        (Call::Look, "0 wrong"),
        (Call::RemoveLeaf, "done"),
        (Call::RemoveLeaf, "done"),
        (Call::Look, "none"),
        (Call::Try(LES), "damaged"),
        (Call::Remove, "done"),
        (Call::Remove, "done"),
        (Call::Names, ""),
    ];
    let mut share = share_of(rt.alloc(), &[])?;
    check(rt.alloc(), &mut share, &rows)?;
    Ok(())
}

/// What stands before the call that fails: a record, and a leaf with one wrong try.
const BEFORE: [(Call, &str); 3] = [
    (Call::Put("one"), "done"),
    (Call::Insert, "label 0"),
    (Call::Try(9), "wrong"),
];

/// A call that fails, a look afterwards, and what that shows where the change isn't done and where it is.
#[rattlefmt::skip]
const FAILING: [(Call, Call, &str, &str); 11] = [
    (Call::Names, Call::Names, "ann.stash m.leaf.00000 ", "ann.stash m.leaf.00000 "),
    (Call::Get, Call::Get, "one", "one"),
    (Call::Look, Call::Look, "1 wrong", "1 wrong"),
    (Call::Put("two"), Call::Get, "one", "two"),
    (Call::Remove, Call::Get, "one", "none"),
    // The leaf of a failed insert is gone at the next step.
    (Call::Insert, Call::Names, "ann.stash m.leaf.00000 ", "ann.stash m.leaf.00000 "),
    (Call::Try(9), Call::Look, "1 wrong", "2 wrong"),
    (Call::Try(LES), Call::Look, "1 wrong", "0 wrong"),
    (Call::Reset(9), Call::Look, "1 wrong", "1 wrong"),
    (Call::Reset(RESET), Call::Look, "1 wrong", "0 wrong"),
    (Call::RemoveLeaf, Call::Look, "1 wrong", "none"),
];

// A call that fails, and what a look shows then. The call after it doesn't fail.
fn check_fault(alloc: Global, call: Call, look: Call, done: bool, shown: &str) -> Outcome {
    let mut share = share_of(alloc, &[Fail { call: 4, done }])?;
    check(alloc, &mut share, &BEFORE)?;
    check(alloc, &mut share, &[(call, "failed"), (look, shown)])
}

#[test]
fn each_call_fails_with_its_change_done_or_not(rt: HostRuntime) -> Outcome {
    for (call, look, before, after) in FAILING {
        check_fault(rt.alloc(), call, look, false, before)?;
        check_fault(rt.alloc(), call, look, true, after)?;
    }
    Ok(())
}

/// Calls over a lost tree. Those on records go on.
const LOST: [(Call, &str); 9] = [
    (Call::Insert, "lost"),
    (Call::Try(LES), "lost"),
    (Call::Reset(RESET), "lost"),
    (Call::RemoveLeaf, "lost"),
    (Call::Look, "lost"),
    (Call::Put("two"), "done"),
    (Call::Get, "two"),
    (Call::Names, "ann.stash m.leaf.00000 "),
    (Call::Remove, "done"),
];

#[test]
fn over_a_lost_tree_calls_on_leaves_tell_its_roots(rt: HostRuntime) -> Outcome {
    let mut share = share_of(rt.alloc(), &[])?;
    check(rt.alloc(), &mut share, &BEFORE)?;
    let mut share = share.with_lost_tree([7; 32], [8; 32]);
    check(rt.alloc(), &mut share, &LOST)
}

#[test]
fn a_listed_call_on_leaves_fails_over_a_lost_tree(rt: HostRuntime) -> Outcome {
    for (call, _) in LOST.iter().take(5) {
        let share = share_of(
            rt.alloc(),
            &[Fail {
                call: 1,
                done: true,
            }],
        )?;
        let mut share = share.with_lost_tree([7; 32], [8; 32]);
        check(
            rt.alloc(),
            &mut share,
            &[(*call, "failed"), (*call, "lost")],
        )?;
    }
    Ok(())
}
