//! Each edit stopped at each of its steps, and recovered.

use crate::edits::{Bench, Edit, answer, file_text, home_after, make};
use crate::paths::{ROWS, Row};
use crate::records::Outcome;
use crate::shown::home_text;
use mem_share::Fail;
use std::alloc::Global;
use std::test;

// The edits of the rows, and how many calls they make after the opening of nothing.
fn edits_of(alloc: Global, rows: &[Row]) -> Result<(Vec<Edit<'static>>, u64), test::Fail> {
    let mut edits = Vec::new(alloc);
    let mut calls = OPENING;
    for row in rows {
        edits.push(row.0)?;
        calls = calls.wrapping_add(row.1);
    }
    Ok((edits, calls))
}

// How many calls the opening of nothing makes: the names, the stash, and a look for a lost tree.
const OPENING: u64 = 3;

// What the records hold after these rows.
fn text_after(rows: &[Row]) -> &'static str {
    match rows.last() {
        Some(row) => row.3,
        None => "",
    }
}

// A home with these rows, whose next step of this number fails.
fn home_behind(alloc: Global, rows: &[Row], step: u64, done: bool) -> Result<Bench, test::Fail> {
    let (edits, calls) = edits_of(alloc, rows)?;
    let call = calls.wrapping_add(step);
    home_after(alloc, &edits, &[Fail { call, done }])
}

// The edit fails, and the home is recovered.
fn recovered(alloc: Global, mut stopped: Bench, edit: Edit<'_>) -> Result<Bench, test::Fail> {
    let told = answer(alloc, &mut stopped, edit)?;
    if told.as_str() != "failed" {
        return Err(test::Fail::new(told.as_str()));
    }
    let mut bench = Bench::over(alloc, stopped.share)?;
    // The IVs of the edits that were made aren't used again.
    bench.next_iv = 100;
    Ok(bench)
}

// The records hold this.
fn check_text(alloc: Global, bench: &mut Bench, want: &str) -> Outcome {
    let text = home_text(alloc, &mut bench.share)?;
    if text.as_str() != want {
        return Err(test::Fail::new(format_args!("{text} and not {want}")));
    }
    Ok(())
}

// The edit behind these rows is stopped at a step and recovered, and then made where it wasn't done.
fn check_stop(alloc: Global, rows: &[Row], row: &Row, step: u64, done: bool) -> Outcome {
    let stopped = home_behind(alloc, rows, step, done)?;
    let mut bench = recovered(alloc, stopped, row.0)?;
    if step < row.2 || step == row.2 && !done {
        make_behind(alloc, &mut bench, rows, row.0)?;
    }
    check_text(alloc, &mut bench, row.3)
}

// The records hold what they hold behind these rows, and the edit is made.
fn make_behind(alloc: Global, bench: &mut Bench, rows: &[Row], edit: Edit<'_>) -> Outcome {
    check_text(alloc, bench, text_after(rows))?;
    make(alloc, bench, edit)
}

// The edit of a row is stopped at each of its steps, whose change is done or not.
fn check_row(alloc: Global, rows: &[Row], row: &Row) -> Outcome {
    for step in 1..=row.1 {
        for done in [false, true] {
            check_stop(alloc, rows, row, step, done)?;
        }
    }
    Ok(())
}

// Each row behind those before it.
fn check_rows(alloc: Global, rows: &[Row]) -> Outcome {
    for (at, row) in rows.iter().enumerate() {
        check_row(alloc, &rows[..at], row)?;
    }
    Ok(())
}

#[test]
fn an_edit_that_is_stopped_was_made_or_wasnt(rt: HostRuntime) -> Outcome {
    check_rows(rt.alloc(), &ROWS)
}

// The file is read twice, and the first read fails.
fn check_reads(alloc: Global, bench: &mut Bench, after: &str) -> Outcome {
    for want in ["failed", "milk"] {
        let text = file_text(alloc, &mut bench.share, "list")?;
        if text.as_str() != want {
            return Err(test::Fail::new(text.as_str()));
        }
    }
    check_text(alloc, bench, after)
}

// Behind these rows a read fails.
fn check_failed_read(alloc: Global, rows: &[Row]) -> Outcome {
    let mut bench = home_behind(alloc, rows, 1, false)?;
    check_reads(alloc, &mut bench, text_after(rows))
}

#[test]
fn a_read_that_fails_is_told_and_changes_nothing(rt: HostRuntime) -> Outcome {
    check_failed_read(rt.alloc(), &ROWS[..3])
}
