//! Each damaged record is told by its name, and nothing is removed.

use crate::edits::{Edit, fault_text, file_text, home_after};
use crate::records::{Outcome, Record, ann, names_text, put, read, share_of};
use ct_bytes::Blob;
use home_recovery::recover;
use mem_share::MemShare;
use pw_types::Schedule;
use share_api::{NewLeaf, Share};
use std::alloc::{AllocError, Global};
use std::test;

/// What stands in the record of a block's factor: its label, its edition, and the leaf of a PIN.
type Written = (&'static str, u64, Option<u16>);

/// A block of edition 1, and the record of its factor, where it is there.
type Row = (&'static str, Option<Written>);

/// A home: the account of its stash, the bytes of its payload, its factors, and what is answered.
type Home = (&'static str, u16, &'static [Row], &'static str);

const MAIN: Row = ("main", Some(("main", 1, None)));

#[rattlefmt::skip]
const HOMES: [Home; 13] = [
    ("ann", 33, &[MAIN], "1 factors"),
    ("ann", 945, &[MAIN], "1 factors"),
    ("ann", 946, &[MAIN], "ann.stash is damaged"),
    ("bob", 33, &[MAIN], "ann.stash is damaged"),
    ("ann", 33, &[("main", None)], "ann.fac.main.1 is damaged"),
    ("ann", 33, &[("main", Some(("spare", 1, None)))], "ann.fac.main.1 is damaged"),
    ("ann", 33, &[("main", Some(("main", 2, None)))], "ann.fac.main.1 is damaged"),
    ("ann", 33, &[MAIN, ("pin", Some(("pin", 1, Some(8))))], "2 factors"),
    ("ann", 33, &[MAIN, ("pin", Some(("pin", 1, Some(9))))], "ann.leaf.00009 is damaged"),
    ("ann", 33, &[("pin", Some(("pin", 1, Some(0))))], "ann.stash is damaged"),
    ("ann", 33, &[MAIN, ("p0", Some(("p0", 1, Some(0)))), ("p1", Some(("p1", 1, Some(0))))],
        "ann.stash is damaged"),
    ("ann", 33, &PINS, "9 factors"),
    ("ann", 33, &PINS_AND_ONE, "ann.stash is damaged"),
];

// The labels of a stash rise.
#[rattlefmt::skip]
const PINS: [Row; 9] = [
    MAIN,
    ("p0", Some(("p0", 1, Some(0)))),
    ("p1", Some(("p1", 1, Some(1)))),
    ("p2", Some(("p2", 1, Some(2)))),
    ("p3", Some(("p3", 1, Some(3)))),
    ("p4", Some(("p4", 1, Some(4)))),
    ("p5", Some(("p5", 1, Some(5)))),
    ("p6", Some(("p6", 1, Some(6)))),
    ("p7", Some(("p7", 1, Some(7)))),
];

#[rattlefmt::skip]
const PINS_AND_ONE: [Row; 10] = [
    MAIN,
    ("p0", Some(("p0", 1, Some(0)))),
    ("p1", Some(("p1", 1, Some(1)))),
    ("p2", Some(("p2", 1, Some(2)))),
    ("p3", Some(("p3", 1, Some(3)))),
    ("p4", Some(("p4", 1, Some(4)))),
    ("p5", Some(("p5", 1, Some(5)))),
    ("p6", Some(("p6", 1, Some(6)))),
    ("p7", Some(("p7", 1, Some(7)))),
    ("p8", Some(("p8", 1, Some(8)))),
];

// These bytes, one after another.
fn joined(alloc: Global, parts: &[&[u8]]) -> Result<Vec<u8>, AllocError> {
    let mut bytes = Vec::new(alloc);
    for part in parts {
        bytes.extend_from_slice(part)?;
    }
    Ok(bytes)
}

// A block's bytes in a stash's record, spelled by hand.
fn block_bytes(alloc: Global, label: &str) -> Result<Vec<u8>, AllocError> {
    let edition = 1u64.to_be_bytes();
    let size = [label.len().min(255) as u8];
    joined(alloc, &[&size, label.as_bytes(), &edition, &[2], &[0; 60]])
}

// A stash's record up to its blocks, spelled by hand.
fn head_bytes(alloc: Global, account: &str, payload: u16) -> Result<Vec<u8>, AllocError> {
    let next = 2u64.to_be_bytes();
    let front = [2, account.len().min(255) as u8];
    let size = payload.to_be_bytes();
    let sealed = vec![in alloc; 0u8; payload as usize]?;
    let parts = [
        &front,
        account.as_bytes(),
        &next,
        &[1],
        &[0; 12],
        &size,
        &sealed,
        &[0; 16],
    ];
    joined(alloc, &parts)
}

// A stash's record, spelled by hand.
fn stash_bytes(alloc: Global, home: &Home) -> Result<Vec<u8>, AllocError> {
    let (account, payload, rows, _) = home;
    let mut bytes = head_bytes(alloc, account, *payload)?;
    bytes.push(rows.len().min(255) as u8)?;
    for row in *rows {
        bytes.extend_from_slice(&block_bytes(alloc, row.0)?)?;
    }
    Ok(bytes)
}

// A factor's record, spelled by hand.
fn factor_bytes(alloc: Global, written: Written) -> Result<Vec<u8>, AllocError> {
    let (label, edition, leaf) = written;
    let edition = edition.to_be_bytes();
    let size = label.len().min(255) as u8;
    match leaf {
        None => joined(
            alloc,
            &[&[1, 1, size], label.as_bytes(), &edition, &[1], &[0; 16]],
        ),
        Some(leaf) => {
            let leaf = leaf.to_be_bytes();
            joined(
                alloc,
                &[
                    &[1, 2, size],
                    label.as_bytes(),
                    &edition,
                    &[1],
                    &[0; 16],
                    &leaf,
                ],
            )
        }
    }
}

// Makes the leaves 0 to 8.
fn put_leaves(alloc: Global, share: &mut MemShare) -> Outcome {
    for _ in 0..9 {
        share.stock(alloc, 1)?;
        let leaf = NewLeaf {
            les: [1; 32],
            hes: [2; 32],
            reset: [3; 32],
            schedule: Schedule::usual(),
        };
        if share.insert_leaf(&leaf, 0).is_err() {
            return Err(test::Fail::new("the leaf isn't made"));
        }
    }
    Ok(())
}

// A share with the home, with a record of a factor that it doesn't name, and with the leaves 0 to 8.
fn share_with(alloc: Global, home: &Home) -> Result<MemShare, test::Fail> {
    let mut share = share_of(alloc, &[])?;
    put_leaves(alloc, &mut share)?;
    put(alloc, &mut share, Record::Factor("other", 1), b"?")?;
    for (label, record) in home.2 {
        if let Some(written) = record {
            let bytes = factor_bytes(alloc, *written)?;
            put(
                alloc,
                &mut share,
                Record::Factor(label, 1),
                bytes.as_slice(),
            )?;
        }
    }
    let bytes = stash_bytes(alloc, home)?;
    put(alloc, &mut share, Record::Stash, bytes.as_slice())?;
    Ok(share)
}

// What is loaded: how many factors, or the fault.
fn loaded_text(alloc: Global, share: &mut MemShare) -> Result<String, test::Fail> {
    match recover(alloc, ann(), share, 0) {
        Ok(stored) => Ok(format!(in alloc; "{} factors", stored.factors.len())?),
        Err(fault) => fault_text(alloc, &fault),
    }
}

// A share answers so, and where that is damage nothing is removed.
fn check(alloc: Global, share: &mut MemShare, want: &str) -> Outcome {
    let before = names_text(alloc, share)?;
    let text = loaded_text(alloc, share)?;
    let after = names_text(alloc, share)?;
    let same = before.as_str() == after.as_str();
    if text.as_str() != want || same != want.ends_with("damaged") {
        return Err(test::Fail::new(format_args!("{text} and not {want}: {after}")));
    }
    Ok(())
}

// Each home answers so.
fn check_homes(alloc: Global, homes: &[Home]) -> Outcome {
    for home in homes {
        let mut share = share_with(alloc, home)?;
        check(alloc, &mut share, home.3)?;
    }
    Ok(())
}

#[test]
fn a_home_outside_its_bounds_is_told(rt: HostRuntime) -> Outcome {
    check_homes(rt.alloc(), &HOMES)
}

// A record of this home that is outside its grammar is told.
fn check_record(alloc: Global, home: &Home, record: Record<'_>, want: &str) -> Outcome {
    let mut share = share_with(alloc, home)?;
    put(alloc, &mut share, record, b"?")?;
    check(alloc, &mut share, want)
}

// The stash and a factor's record.
fn check_records(alloc: Global, home: &Home) -> Outcome {
    check_record(alloc, home, Record::Stash, "ann.stash is damaged")?;
    check_record(
        alloc,
        home,
        Record::Factor("main", 1),
        "ann.fac.main.1 is damaged",
    )
}

#[test]
fn a_record_outside_its_grammar_is_told(rt: HostRuntime) -> Outcome {
    check_records(rt.alloc(), &HOMES[0])
}

// A vault file whose record has these bytes is read so.
fn check_file(
    alloc: Global,
    share: &mut MemShare,
    name: &str,
    bytes: &[u8],
    want: &str,
) -> Outcome {
    put(alloc, share, Record::File(name), bytes)?;
    let text = file_text(alloc, share, name)?;
    if text.as_str() != want {
        return Err(test::Fail::new(format_args!("{text} and not {want}")));
    }
    Ok(())
}

// These bytes with one bit turned, behind the version and the IV.
fn turned(alloc: Global, bytes: &[u8]) -> Result<Vec<u8>, test::Fail> {
    let mut other = bytes.to_vec(alloc)?;
    if other.len() <= 13 {
        return Err(test::Fail::new("the record is too short"));
    }
    other[13] ^= 1;
    Ok(other)
}

// The record of a vault file of four bytes has 33.
fn check_size(whole: &[u8]) -> Outcome {
    if whole.len() != 33 {
        return Err(test::Fail::new("the record has another size"));
    }
    Ok(())
}

// The first 28 bytes of a record.
fn cut(whole: &[u8]) -> Result<&[u8], test::Fail> {
    if whole.len() < 28 {
        return Err(test::Fail::new("the record is too short"));
    }
    Ok(&whole[..28])
}

// Whatever the record of the vault file `list` becomes is read so; it was this one.
fn check_files(alloc: Global, share: &mut MemShare, record: Blob) -> Outcome {
    let whole = record.as_slice();
    check_size(whole)?;
    let other = turned(alloc, whole)?;
    let short = cut(whole)?;
    let damaged = "ann.file.6c697374 is damaged";
    // Under another name the record has another tag.
    let rows: [(&str, &[u8], &str); 5] = [
        ("list", b"?", damaged),
        ("list", short, damaged),
        ("list", &other, damaged),
        ("list", whole, "milk"),
        ("plan", whole, "ann.file.706c616e is damaged"),
    ];
    for (name, bytes, want) in rows {
        check_file(alloc, share, name, bytes, want)?;
    }
    Ok(())
}

// A file that isn't there is damaged, and so are records that aren't a file's.
fn check_share(alloc: Global, share: &mut MemShare) -> Outcome {
    let Some(whole) = read(alloc, share, Record::File("list"))? else {
        return Err(test::Fail::new("the file isn't there"));
    };
    let text = file_text(alloc, share, "none")?;
    if text.as_str() != "ann.file.6e6f6e65 is damaged" {
        return Err(test::Fail::new(text.as_str()));
    }
    check_files(alloc, share, whole)
}

#[test]
fn a_damaged_vault_file_is_told_when_it_is_read(rt: HostRuntime) -> Outcome {
    let edits = [
        Edit::Create,
        Edit::AddFirst("main", 7),
        Edit::PutFile("list", "milk"),
    ];
    let mut bench = home_after(rt.alloc(), &edits, &[])?;
    check_share(rt.alloc(), &mut bench.share)
}
