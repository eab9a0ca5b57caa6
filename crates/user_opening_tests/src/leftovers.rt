//! Openings over records that no turn made.

use crate::support::{Outcome, Piece, fault_text, names_text, open, put, share_of, state_text};
use mem_share::{Fail, MemShare};
use std::alloc::Global;
use std::test;

// A factor's record, a vault file and a leaf without a stash.
const LEFTOVERS: [Piece; 3] = [Piece::Factor, Piece::File, Piece::Leaf];

// A share with these pieces, whose listed calls fail.
fn share_with(alloc: Global, pieces: &[Piece], fails: &[Fail]) -> Result<MemShare, test::Fail> {
    let mut share = share_of(alloc, fails)?;
    for piece in pieces {
        put(alloc, &mut share, *piece)?;
    }
    Ok(share)
}

// What the opening of a share answers.
fn opening(alloc: Global, share: &mut MemShare) -> Result<String, test::Fail> {
    match open(alloc, share) {
        Ok(state) => state_text(alloc, &state),
        Err(fault) => fault_text(alloc, &fault),
    }
}

#[test]
fn what_no_stash_names_is_removed(rt: HostRuntime) -> Outcome {
    let alloc = rt.alloc();
    let mut share = share_with(alloc, &LEFTOVERS, &[])?;
    let before = names_text(alloc, &mut share)?;
    assert_eq!(rt;
        before.as_str(),
        "ann.fac.main.3 ann.file.6c697374 m.leaf.00000 "
    );
    let answer = opening(alloc, &mut share)?;
    assert_eq!(rt; answer.as_str(), "no home, 0 factors, 0 files, 0 sessions");
    let after = names_text(alloc, &mut share)?;
    assert_eq!(rt; after.as_str(), "");
    Ok(())
}

#[test]
fn a_damaged_stash_is_told_and_nothing_is_removed(rt: HostRuntime) -> Outcome {
    let alloc = rt.alloc();
    let mut share = share_with(alloc, &[Piece::Factor, Piece::BadStash], &[])?;
    let answer = opening(alloc, &mut share)?;
    assert_eq!(rt; answer.as_str(), "ann.stash is damaged");
    let after = names_text(alloc, &mut share)?;
    assert_eq!(rt; after.as_str(), "ann.fac.main.3 ann.stash ");
    Ok(())
}

// Opens with a call that fails, and then again.
fn check_fault(alloc: Global, fail: Fail) -> Outcome {
    let mut share = share_with(alloc, &LEFTOVERS, &[fail])?;
    let first = opening(alloc, &mut share)?;
    let second = opening(alloc, &mut share)?;
    let after = names_text(alloc, &mut share)?;
    if first.as_str() != "failed"
        || !second.as_str().starts_with("no home")
        || !after.as_str().is_empty()
    {
        return Err(test::Fail::new(format_args!(
            "call {}, done {}: {first}, {second}, {after}",
            fail.call, fail.done
        )));
    }
    Ok(())
}

#[test]
fn each_failed_call_is_told_and_the_account_opens_again(rt: HostRuntime) -> Outcome {
    // Three calls make the leftovers. An opening lists the names, reads the stash, looks for a lost tree, and removes
    // three.
    for call in 4..10u64 {
        for done in [false, true] {
            check_fault(rt.alloc(), Fail { call, done })?;
        }
    }
    Ok(())
}
