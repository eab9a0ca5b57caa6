//! The board in memory: its files, the calls that are to fail, and what a crash leaves.

use crate::support::{Outcome, board_of, has, rename, sync};
use board_model::Board;
use fault_count::Failed;
use mem_board::{Fail, MemBoard};
use std::alloc::Global;
use std::test;

// A call on the file `a`, on its temporary file `tmp-a`, or on the chip.
#[derive(Clone, Copy)]
enum Step {
    Write(&'static str),
    Sync,
    Rename,
    Remove,
    SyncDir,
    Store(u8),
}

fn make(alloc: Global, board: &mut MemBoard, step: Step) -> Result<(), Failed> {
    match step {
        Step::Write(bytes) => board.write_temp("tmp-a", bytes.as_bytes()),
        Step::Sync => sync(alloc, board, "tmp-a"),
        Step::Rename => rename(alloc, board, "tmp-a", "a"),
        Step::Remove => board.remove("a"),
        Step::SyncDir => board.sync_dir(),
        Step::Store(byte) => board.nv_store(&[byte; 256]),
    }
}

fn make_all(alloc: Global, board: &mut MemBoard, steps: &[Step]) -> Result<(), Failed> {
    for step in steps {
        make(alloc, board, *step)?;
    }
    Ok(())
}

#[test]
fn names_are_listed_once_in_the_order_of_their_bytes(rt: HostRuntime) -> Outcome {
    let alloc = rt.alloc();
    let files = [("b", ""), ("a.1", ""), ("b", ""), ("a", ""), ("é", "")];
    let names = board_of(alloc, &files, &[])?.list(alloc)?;
    assert_eq!(rt; names.len(), 4);
    for (name, want) in names.iter().zip(["a", "a.1", "b", "é"]) {
        assert_eq!(rt; name.as_str(), want);
    }
    Ok(())
}

#[test]
fn a_listed_call_fails_once_with_its_change_done_or_not(rt: HostRuntime) -> Outcome {
    let alloc = rt.alloc();
    for (done, want) in [(false, "-"), (true, "new")] {
        let later = Fail {
            call: 2,
            done: !done,
        };
        let mut board = board_of(alloc, &[], &[Fail { call: 2, done }, later])?;
        assert!(rt; has(alloc, &mut board, "tmp-a", "-")?);
        assert!(rt; make(alloc, &mut board, Step::Write("new")).is_err());
        assert!(rt; has(alloc, &mut board, "tmp-a", want)?, "done {done}");
        make(alloc, &mut board, Step::Write("next"))?;
        assert!(rt; has(alloc, &mut board, "tmp-a", "next")?);
    }
    Ok(())
}

#[test]
fn calls_that_change_nothing_are_numbered_too(rt: HostRuntime) -> Outcome {
    let alloc = rt.alloc();
    let fails = [1, 2, 3].map(|call| Fail { call, done: true });
    let mut board = board_of(alloc, &[("a", "old")], &fails)?;
    assert!(rt; board.read(alloc, "a", 100).is_err());
    assert!(rt; board.list(alloc).is_err());
    assert!(rt; board.nv_load().is_err());
    assert!(rt; has(alloc, &mut board, "a", "old")?);
    Ok(())
}

// What a crash at a tick leaves of the files `a` and `tmp-a`, for each pick.
fn check_picks(alloc: Global, board: &MemBoard, tick: u64, wants: &[(&str, &str)]) -> Outcome {
    if tick > board.ticks() {
        return Err(test::Fail::new("there was no such tick"));
    }
    for (pick, (a, temporary)) in (0..).zip(wants) {
        let mut left = board.crash_at(alloc, tick, pick)?;
        if !has(alloc, &mut left, "a", a)? || !has(alloc, &mut left, "tmp-a", temporary)? {
            return Err(test::Fail::new(format_args!("at tick {tick}, pick {pick}")));
        }
    }
    Ok(())
}

#[test]
fn each_pick_leaves_one_of_the_outcomes(rt: HostRuntime) -> Outcome {
    let alloc = rt.alloc();
    let mut board = board_of(alloc, &[("a", "old")], &[])?;
    make_all(alloc, &mut board, &[Step::Write("entire"), Step::Rename])?;
    check_picks(alloc, &board, 0, &[("old", "-"), ("old", "-")])?;
    // New, as before, absent, cut in half, and the same again.
    let written = [
        ("old", "entire"),
        ("old", "-"),
        ("old", "-"),
        ("old", "ent"),
        ("old", "entire"),
    ];
    check_picks(alloc, &board, 1, &written)?;
    // Renamed, and not.
    let renamed = [
        ("entire", "-"),
        ("old", "-"),
        ("old", "-"),
        ("ent", "-"),
        ("old", "entire"),
        ("old", "-"),
        ("old", "-"),
        ("old", "ent"),
    ];
    check_picks(alloc, &board, 2, &renamed)
}

#[test]
fn a_synced_file_is_whole_and_a_synced_directory_has_its_renames(rt: HostRuntime) -> Outcome {
    let alloc = rt.alloc();
    let mut board = board_of(alloc, &[("a", "old")], &[])?;
    let steps = [
        Step::Write("entire"),
        Step::Sync,
        Step::Rename,
        Step::SyncDir,
        Step::Remove,
    ];
    make_all(alloc, &mut board, &steps)?;
    // The file may be absent until the directory is synced.
    let synced = [
        ("old", "entire"),
        ("old", "-"),
        ("old", "-"),
        ("old", "entire"),
    ];
    check_picks(alloc, &board, 2, &synced)?;
    let renamed = [
        ("entire", "-"),
        ("old", "-"),
        ("old", "-"),
        ("entire", "-"),
        ("old", "entire"),
    ];
    check_picks(alloc, &board, 3, &renamed)?;
    check_picks(alloc, &board, 4, &[("entire", "-"); 8])?;
    let removed = [
        ("-", "-"),
        ("-", "-"),
        ("-", "-"),
        ("-", "-"),
        ("entire", "-"),
    ];
    check_picks(alloc, &board, 5, &removed)
}

// The first of the chip's words that a crash leaves, for each pick.
fn check_words(alloc: Global, board: &MemBoard, tick: u64, wants: &[u8]) -> Outcome {
    if tick > board.ticks() {
        return Err(test::Fail::new("there was no such tick"));
    }
    for (pick, want) in (0..).zip(wants) {
        let mut left = board.crash_at(alloc, tick, pick)?;
        if left.nv_load()?[0] != *want {
            return Err(test::Fail::new(format_args!("at tick {tick}, pick {pick}")));
        }
    }
    Ok(())
}

#[test]
fn a_failed_store_stays_open_until_the_directory_is_synced(rt: HostRuntime) -> Outcome {
    let alloc = rt.alloc();
    for (done, want) in [(false, 1), (true, 2)] {
        let mut board = board_of(alloc, &[], &[Fail { call: 2, done }])?;
        assert!(rt; make_all(alloc, &mut board, &[Step::Store(1), Step::Store(2)]).is_err());
        assert_eq!(rt; board.nv_load()?[0], want);
        make(alloc, &mut board, Step::SyncDir)?;
        check_words(alloc, &board, 1, &[1, 1])?;
        check_words(alloc, &board, 2, &[2, 1])?;
        check_words(alloc, &board, 3, &[want, want])?;
    }
    Ok(())
}
