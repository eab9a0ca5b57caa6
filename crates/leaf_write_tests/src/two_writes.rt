//! The words and a record, put or removed, stopped by a crash or a fault, by a table of all of them.

use board_model::{Board, BoardFault};
use ct_bytes::{Blob, NoMemory, Text};
use fault_count::Failed;
use leaf_writes::{store_and_put, store_and_remove};
use mem_board::{Fail, MemBoard};
use std::alloc::Global;
use std::test;

type Outcome = Result<(), test::Fail>;

// The words before the writes, and those that are stored.
const OLD_WORDS: [u8; 256] = [1; 256];

const NEW_WORDS: [u8; 256] = [2; 256];

// A board with the old words and with the file `a` of these bytes, or without it where they are `-`.
fn board_with(alloc: Global, old: &str, fails: &[Fail]) -> Result<MemBoard, NoMemory> {
    let mut files = Vec::new(alloc);
    if old != "-" {
        let name = Text::from_str(alloc, "a")?;
        let bytes = Blob::from_slice(alloc, old.as_bytes())?;
        files.push((name, bytes))?;
    }
    MemBoard::new(alloc, files, OLD_WORDS, fails.to_vec(alloc)?)
}

// Stores the new words, and puts the file `a`, or, where the bytes are `-`, removes it.
fn write(board: &mut MemBoard, new: &str) -> Result<(), Failed> {
    if new == "-" {
        store_and_remove(board, &NEW_WORDS, "a")
    } else {
        store_and_put(board, &NEW_WORDS, "a", new.as_bytes())
    }
}

// Whether the file `a` has these bytes, or, where they are `-`, is absent.
fn has(alloc: Global, board: &mut MemBoard, want: &str) -> Result<bool, BoardFault> {
    match board.read(alloc, "a", 100)? {
        Some(bytes) => Ok(bytes.as_slice() == want.as_bytes()),
        None => Ok(want == "-"),
    }
}

// How many of the two writes an image has.
#[derive(Clone, Copy, PartialEq, Eq)]
enum Writes {
    None,
    Words,
    Both,
    // The record without its words, or another file or other words.
    Torn,
}

fn writes_of(
    alloc: Global,
    image: &mut MemBoard,
    old: &str,
    new: &str,
) -> Result<Writes, test::Fail> {
    let words = image.nv_load()?;
    let (is_old, is_new) = (has(alloc, image, old)?, has(alloc, image, new)?);
    Ok(match (words == OLD_WORDS, words == NEW_WORDS) {
        (true, false) if is_old => Writes::None,
        (false, true) if is_old => Writes::Words,
        (false, true) if is_new => Writes::Both,
        _ => Writes::Torn,
    })
}

// No crash at any tick, with any of 16 picks, leaves the record without its words. At the first tick neither write is
// there, and after `Ok` at the last tick both are.
fn check(alloc: Global, old: &str, new: &str, fails: &[Fail]) -> Outcome {
    let mut board = board_with(alloc, old, fails)?;
    let is_done = write(&mut board, new).is_ok();
    if is_done != fails.is_empty() {
        return Err(test::Fail::new("a listed call must fail"));
    }
    let last = board.ticks();
    for tick in 0..last.saturating_add(1) {
        for pick in 0..16u64 {
            if tick > board.ticks() {
                return Err(test::Fail::new("there was no such tick"));
            }
            let mut image = board.crash_at(alloc, tick, pick)?;
            let writes = writes_of(alloc, &mut image, old, new)?;
            let is_early = tick == 0 && writes != Writes::None;
            let is_late = tick == last && is_done && writes != Writes::Both;
            if writes == Writes::Torn || is_early || is_late {
                return Err(test::Fail::new(format_args!(
                    "{old} to {new} at tick {tick}, pick {pick}"
                )));
            }
        }
    }
    Ok(())
}

#[test]
fn a_crash_at_any_tick_leaves_no_record_without_its_words(rt: HostRuntime) -> Outcome {
    for (old, new) in [("-", "leaf"), ("old", "leaf"), ("old", "-")] {
        check(rt.alloc(), old, new, &[])?;
    }
    Ok(())
}

#[test]
fn nor_does_a_fault_at_any_call(rt: HostRuntime) -> Outcome {
    for (old, new, calls) in [("-", "leaf", 5), ("old", "leaf", 5), ("old", "-", 3)] {
        for call in 1..calls + 1u64 {
            for done in [false, true] {
                check(rt.alloc(), old, new, &[Fail { call, done }])?;
            }
        }
    }
    Ok(())
}
