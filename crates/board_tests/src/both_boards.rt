//! One table of calls over a real directory and over the board in memory, which must answer alike.

use crate::support::{Outcome, board_of, rename, sync, write};
use board_model::{Board, BoardFault, FileBoard};
use fault_count::Failed;
use mem_board::Fail;
use std::alloc::{AllocError, Global};
use std::{fs, test};

/// A call of a line, and the answer that both boards must give.
///
/// `read` gives 100 bytes at most and `front` 3; a file that is absent is `-`. Each name of a list has a comma
/// behind it. `store` fills the chip's words with one character, of which `load` gives the first.
///
/// In the real directory there are directories `folder` and `tmp-folder`, which are in the way. In memory the same
/// calls fail, with nothing done.
const TABLE: &str = "list | 
load | \0
read a | -
remove a | ok
write tmp-a entire | ok
read tmp-a | entire
sync tmp-a | ok
rename tmp-a a | ok
sync_dir | ok
read a | entire
front a | ent
read tmp-a | -
write tmp-b one | ok
write tmp-b 2 | ok
write tmp-\u{e9} | ok
sync tmp-b | ok
sync tmp-\u{e9} | ok
list | a,tmp-b,tmp-\u{e9},
rename tmp-b a | ok
read a | 2
store 7 | ok
store 9 | ok
load | 9
write tmp-folder new | failed
read folder | failed
remove folder | failed
rename tmp-\u{e9} folder | failed
list | a,tmp-\u{e9},
remove a | ok
sync_dir | ok
list | tmp-\u{e9},";

const FAILED: &str = "failed";

/// The words of a call.
#[derive(Clone, Copy)]
struct Call<'a> {
    verb: &'a str,
    name: &'a str,
    rest: &'a str,
}

// A line's first word, and what follows the space behind it.
fn word_of(line: &str) -> (&str, &str) {
    match line.split_once(' ') {
        Some(parts) => parts,
        None => (line, ""),
    }
}

fn call_of(line: &str) -> Call<'_> {
    let (verb, rest) = word_of(line);
    let (name, rest) = word_of(rest);
    Call { verb, name, rest }
}

// The call and the wanted answer of a line.
fn parts_of(line: &str) -> (&str, &str) {
    match line.split_once(" | ") {
        Some(parts) => parts,
        None => (line, ""),
    }
}

// The numbers of the calls that fail.
fn fails_of(alloc: Global) -> Result<Vec<Fail>, AllocError> {
    let mut fails = Vec::new(alloc);
    let mut made = 0u64;
    for line in TABLE.lines() {
        let (call, want) = parts_of(line);
        let verb = call_of(call).verb;
        // A sync and a rename look first.
        let looks = verb == "sync" || verb == "rename";
        made = made.saturating_add(if looks { 2 } else { 1 });
        if want == FAILED {
            fails.push(Fail {
                call: made,
                done: false,
            })?;
        }
    }
    Ok(fails)
}

fn is_done(outcome: Result<(), Failed>, want: &str) -> bool {
    match outcome {
        Ok(()) => want == "ok",
        Err(Failed) => want == FAILED,
    }
}

// The names of the files, each with a comma behind it.
fn names<B: Board>(alloc: Global, board: &mut B) -> Result<String, BoardFault> {
    let mut text = String::new(alloc);
    for name in board.list(alloc)? {
        if text.push_str(name.as_str()).is_err() || text.push(',').is_err() {
            return Err(BoardFault::NoMemory);
        }
    }
    Ok(text)
}

fn lists<B: Board>(alloc: Global, board: &mut B, want: &str) -> bool {
    match names(alloc, board) {
        Ok(names) => names.as_str() == want,
        Err(_) => want == FAILED,
    }
}

fn reads<B: Board>(alloc: Global, board: &mut B, name: &str, most: usize, want: &str) -> bool {
    match board.read(alloc, name, most) {
        Ok(Some(bytes)) => bytes.as_slice() == want.as_bytes(),
        Ok(None) => want == "-",
        Err(_) => want == FAILED,
    }
}

fn stores<B: Board>(board: &mut B, text: &str, want: &str) -> bool {
    match text.as_bytes().first() {
        Some(byte) => is_done(board.nv_store(&[*byte; 256]), want),
        None => false,
    }
}

fn loads<B: Board>(board: &mut B, want: &str) -> bool {
    match board.nv_load() {
        Ok(words) => want.as_bytes() == [words[0]].as_slice(),
        Err(Failed) => want == FAILED,
    }
}

// Whether a board answers a call so.
fn answers<B: Board>(alloc: Global, board: &mut B, call: Call<'_>, want: &str) -> bool {
    match call.verb {
        "write" => is_done(write(board, call.name, call.rest), want),
        "sync" => is_done(sync(alloc, board, call.name), want),
        "rename" => is_done(rename(alloc, board, call.name, call.rest), want),
        "remove" => is_done(board.remove(call.name), want),
        "sync_dir" => is_done(board.sync_dir(), want),
        "list" => lists(alloc, board, want),
        "read" => reads(alloc, board, call.name, 100, want),
        "front" => reads(alloc, board, call.name, 3, want),
        "store" => stores(board, call.name, want),
        "load" => loads(board, want),
        _ => false,
    }
}

// Makes all calls of the table.
fn check<B: Board>(alloc: Global, board: &mut B) -> Outcome {
    for line in TABLE.lines() {
        let (call, want) = parts_of(line);
        if !answers(alloc, board, call_of(call), want) {
            return Err(test::Fail::new(line));
        }
    }
    Ok(())
}

#[test]
fn a_real_directory_answers_as_the_table_says(rt: HostRuntime) -> Outcome {
    let alloc = rt.alloc();
    let Ok(mut board) = FileBoard::open(rt, alloc, "both//") else {
        return Err(test::Fail::new("the directory can't be made"));
    };
    for name in ["both/folder", "both/tmp-folder"] {
        fs::create_dir(&rt, name)?;
    }
    check(alloc, &mut board)?;
    // The calls reached the disk.
    assert_eq!(rt; fs::read(&rt, "both/tmp-\u{e9}")?.len(), 0);
    assert_eq!(rt;
        fs::read(&rt, "both.chip/words")?.as_slice(),
        [57u8; 256].as_slice()
    );
    Ok(())
}

#[test]
fn so_does_the_board_in_memory(rt: HostRuntime) -> Outcome {
    let alloc = rt.alloc();
    let fails = fails_of(alloc)?;
    let mut board = board_of(alloc, &[], &fails)?;
    check(alloc, &mut board)?;
    assert_eq!(rt; board.starved(), 0);
    Ok(())
}
