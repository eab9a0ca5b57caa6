//! Each edit on its happy path, and stopped at each of its steps and recovered.

use crate::bench::{Bench, Outcome, home, load};
use crate::edits::{Edit, answer};
use crate::shown::home_text;
use mem_share::Fail;
use share_api::Share;
use std::alloc::Global;
use std::test;

/// An edit, what it answers, how many steps it makes, which of them is its commit point, and what is there after it.
type Row = (Edit, &'static str, u64, u64, &'static str);

/// Edits one after another.
#[rattlefmt::skip]
const ROWS: [Row; 8] = [
    (Edit::Add("one", 3), "ok", 3, 3,
        "ann.fac.main.1 ann.fac.one.2 ann.stash m.leaf.00000 next 3, one 2 by 3 at 0 wrong 0"),
    (Edit::Try("one", 9), "wrong", 1, 1,
        "ann.fac.main.1 ann.fac.one.2 ann.stash m.leaf.00000 next 3, one 2 by 3 at 0 wrong 1"),
    (Edit::Reset("one"), "ok", 1, 1,
        "ann.fac.main.1 ann.fac.one.2 ann.stash m.leaf.00000 next 3, one 2 by 3 at 0 wrong 0"),
    (Edit::Add("two", 4), "ok", 3, 3,
        "ann.fac.main.1 ann.fac.one.2 ann.fac.two.3 ann.stash m.leaf.00000 m.leaf.00001 \
next 4, one 2 by 3 at 0 wrong 0, two 3 by 4 at 1 wrong 0"),
    (Edit::Try("two", 8), "wrong", 1, 1,
        "ann.fac.main.1 ann.fac.one.2 ann.fac.two.3 ann.stash m.leaf.00000 m.leaf.00001 \
next 4, one 2 by 3 at 0 wrong 0, two 3 by 4 at 1 wrong 1"),
    (Edit::Try("two", 4), "right", 1, 1,
        "ann.fac.main.1 ann.fac.one.2 ann.fac.two.3 ann.stash m.leaf.00000 m.leaf.00001 \
next 4, one 2 by 3 at 0 wrong 0, two 3 by 4 at 1 wrong 0"),
    (Edit::Update("one", 5), "ok", 5, 3,
        "ann.fac.main.1 ann.fac.one.4 ann.fac.two.3 ann.stash m.leaf.00001 m.leaf.00002 \
next 5, one 4 by 5 at 2 wrong 0, two 3 by 4 at 1 wrong 0"),
    (Edit::Remove("two"), "ok", 3, 1,
        "ann.fac.main.1 ann.fac.one.4 ann.stash m.leaf.00002 next 5, one 4 by 5 at 2 wrong 0"),
];

/// What is there in a home with one password.
const NONE: &str = "ann.fac.main.1 ann.stash next 2";

/// How many calls the making of that home takes.
const MADE: u64 = 6;

// The edit answers so.
fn check_answer(alloc: Global, bench: &mut Bench, edit: Edit, want: &str) -> Outcome {
    let text = answer(alloc, bench, edit)?;
    if text.as_str() != want {
        return Err(test::Fail::new(format_args!("{text} and not {want}")));
    }
    Ok(())
}

// This is there.
fn check_text(alloc: Global, bench: &mut Bench, want: &str) -> Outcome {
    let text = home_text(alloc, &mut bench.share)?;
    if text.as_str() != want {
        return Err(test::Fail::new(format_args!("{text} and not {want}")));
    }
    Ok(())
}

// The edit of a row makes its steps behind a look, and leaves what the row tells.
fn check_row(alloc: Global, bench: &mut Bench, row: &Row) -> Outcome {
    let before = bench.share.place();
    check_answer(alloc, bench, row.0, row.1)?;
    let made = bench.share.place().wrapping_sub(before);
    if made != row.2.wrapping_add(1) {
        return Err(test::Fail::new(format_args!("{made} steps before {}", row.4)));
    }
    check_text(alloc, bench, row.4)
}

#[test]
fn each_edit_leaves_its_records_and_leaves(rt: HostRuntime) -> Outcome {
    let mut bench = home(rt.alloc(), &[])?;
    check_text(rt.alloc(), &mut bench, NONE)?;
    for row in &ROWS {
        check_row(rt.alloc(), &mut bench, row)?;
    }
    Ok(())
}

// A home with these rows, whose next step of this number fails. Each edit makes a look before its steps.
fn home_behind(alloc: Global, rows: &[Row], step: u64, done: bool) -> Result<Bench, test::Fail> {
    let mut call = MADE.wrapping_add(1).wrapping_add(step);
    for row in rows {
        call = call.wrapping_add(row.2).wrapping_add(1);
    }
    let mut bench = home(alloc, &[Fail { call, done }])?;
    for row in rows {
        check_answer(alloc, &mut bench, row.0, row.1)?;
    }
    Ok(bench)
}

// What is there behind these rows.
fn text_behind(rows: &[Row]) -> &'static str {
    match rows.last() {
        Some(row) => row.4,
        None => NONE,
    }
}

// The edit behind these rows fails at a step. Recovered, it was made or it wasn't, and then it can be made.
fn check_stop(alloc: Global, rows: &[Row], row: &Row, step: u64, done: bool) -> Outcome {
    let mut stopped = home_behind(alloc, rows, step, done)?;
    check_answer(alloc, &mut stopped, row.0, "failed")?;
    let mut bench = load(alloc, stopped.share)?;
    // the IVs of the edits that were made aren't used again
    bench.next_iv = 100;
    if step < row.3 || step == row.3 && !done {
        check_text(alloc, &mut bench, text_behind(rows))?;
        check_answer(alloc, &mut bench, row.0, row.1)?;
    }
    check_text(alloc, &mut bench, row.4)
}

// The edit behind these rows is stopped at each of its steps, whose change is done or not.
fn check_stops(alloc: Global, rows: &[Row], row: &Row) -> Outcome {
    for step in 1..=row.2 {
        for done in [false, true] {
            check_stop(alloc, rows, row, step, done)?;
        }
    }
    Ok(())
}

#[test]
fn an_edit_that_is_stopped_was_made_or_wasnt(rt: HostRuntime) -> Outcome {
    for (at, row) in ROWS.iter().enumerate() {
        check_stops(rt.alloc(), &ROWS[..at], row)?;
    }
    Ok(())
}
