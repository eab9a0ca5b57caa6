//! Each edit on its happy path, with the bytes read back.

use crate::edits::{Bench, Edit, file_text, home_after, make};
use crate::records::{Outcome, Record, read};
use crate::shown::home_text;
use ct_bytes::Blob;
use share_api::Share;
use std::alloc::Global;
use std::test;

/// An edit, how many steps it makes, which of them is its commit point, and what the records hold after it.
pub type Row = (Edit<'static>, u64, u64, &'static str);

/// Edits one after another.
#[rattlefmt::skip]
pub const ROWS: [Row; 12] = [
    (Edit::Create, 1, 1,
        "ann.stash next 1"),
    (Edit::AddFirst("main", 7), 2, 2,
        "ann.fac.main.1 ann.stash next 2, main 1 by 7"),
    (Edit::PutFile("list", "milk"), 1, 1,
        "ann.fac.main.1 ann.file.6c697374 ann.stash next 2, main 1 by 7, list has milk"),
    (Edit::PutFile("list", "bread"), 1, 1,
        "ann.fac.main.1 ann.file.6c697374 ann.stash next 2, main 1 by 7, list has bread"),
    (Edit::Add("spare", 8), 2, 2,
        "ann.fac.main.1 ann.fac.spare.2 ann.file.6c697374 ann.stash \
next 3, main 1 by 7, spare 2 by 8, list has bread"),
    (Edit::Update("main", 9), 3, 2,
        "ann.fac.main.3 ann.fac.spare.2 ann.file.6c697374 ann.stash \
next 4, main 3 by 9, spare 2 by 8, list has bread"),
    (Edit::Reseal("main", 9), 1, 1,
        "ann.fac.main.3 ann.fac.spare.2 ann.file.6c697374 ann.stash \
next 4, main 3 by 9, spare 2 by 8, list has bread"),
    (Edit::PutFile("plan", "sow"), 1, 1,
        "ann.fac.main.3 ann.fac.spare.2 ann.file.6c697374 ann.file.706c616e ann.stash \
next 4, main 3 by 9, spare 2 by 8, list has bread, plan has sow"),
    (Edit::Remove("main"), 2, 1,
        "ann.fac.spare.2 ann.file.6c697374 ann.file.706c616e ann.stash \
next 4, spare 2 by 8, list has bread, plan has sow"),
    (Edit::Add("main", 6), 2, 2,
        "ann.fac.main.4 ann.fac.spare.2 ann.file.6c697374 ann.file.706c616e ann.stash \
next 5, main 4 by 6, spare 2 by 8, list has bread, plan has sow"),
    (Edit::Remove("spare"), 2, 1,
        "ann.fac.main.4 ann.file.6c697374 ann.file.706c616e ann.stash \
next 5, main 4 by 6, list has bread, plan has sow"),
    (Edit::PutFile("plan", ""), 1, 1,
        "ann.fac.main.4 ann.file.6c697374 ann.file.706c616e ann.stash \
next 5, main 4 by 6, list has bread, plan has "),
];

// The edit of a row makes its steps, and leaves the records of the row.
fn check_row(alloc: Global, bench: &mut Bench, row: &Row) -> Outcome {
    let (edit, steps, _, want) = *row;
    let before = bench.share.place();
    make(alloc, bench, edit)?;
    let made = bench.share.place().wrapping_sub(before);
    let text = home_text(alloc, &mut bench.share)?;
    if made != steps || text.as_str() != want {
        return Err(test::Fail::new(format_args!("{made} steps, {text} and not {want}")));
    }
    Ok(())
}

// Each edit of the table, and a file read by an edit of its own.
fn check_rows(alloc: Global, bench: &mut Bench, rows: &[Row]) -> Outcome {
    for row in rows {
        check_row(alloc, bench, row)?;
    }
    let text = file_text(alloc, &mut bench.share, "list")?;
    if text.as_str() != "bread" {
        return Err(test::Fail::new(text.as_str()));
    }
    Ok(())
}

#[test]
fn each_edit_leaves_its_records(rt: HostRuntime) -> Outcome {
    let mut bench = Bench::new(rt.alloc())?;
    check_rows(rt.alloc(), &mut bench, &ROWS)
}

// The bytes of the stash.
fn stash_of(alloc: Global, bench: &mut Bench) -> Result<Blob, test::Fail> {
    match read(alloc, &mut bench.share, Record::Stash)? {
        Some(bytes) => Ok(bytes),
        None => Err(test::Fail::new("the stash isn't there")),
    }
}

// The block of a password that is sealed anew is another, of the same size.
fn check_resealed(alloc: Global, bench: &mut Bench) -> Outcome {
    let before = stash_of(alloc, bench)?;
    make(alloc, bench, Edit::Reseal("main", 7))?;
    let after = stash_of(alloc, bench)?;
    let (before, after) = (before.as_slice(), after.as_slice());
    if before == after || before.len() != after.len() {
        return Err(test::Fail::new("the stash has the same block, or another size"));
    }
    Ok(())
}

#[test]
fn a_block_that_is_sealed_anew_is_another(rt: HostRuntime) -> Outcome {
    let edits = [Edit::Create, Edit::AddFirst("main", 7)];
    let mut bench = home_after(rt.alloc(), &edits, &[])?;
    check_resealed(rt.alloc(), &mut bench)
}
