//! What several tests share.

use board_model::{Board, BoardFault};
use ct_bytes::{Blob, NoMemory, Text};
use fault_count::Failed;
use mem_board::{Fail, MemBoard};
use std::alloc::Global;
use std::test;

pub type Outcome = Result<(), test::Fail>;

/// A board in memory with these files, zero words and these failing calls.
pub fn board_of(
    alloc: Global,
    files: &[(&str, &str)],
    fails: &[Fail],
) -> Result<MemBoard, NoMemory> {
    let mut list = Vec::new(alloc);
    for (name, bytes) in files {
        let name = Text::from_str(alloc, name)?;
        let bytes = Blob::from_slice(alloc, bytes.as_bytes())?;
        list.push((name, bytes))?;
    }
    MemBoard::new(alloc, list, [0; 256], fails.to_vec(alloc)?)
}

/// Whether a file has these bytes, or, where they are `-`, is absent.
pub fn has<B: Board>(
    alloc: Global,
    board: &mut B,
    name: &str,
    want: &str,
) -> Result<bool, BoardFault> {
    match board.read(alloc, name, 100)? {
        Some(bytes) => Ok(bytes.as_slice() == want.as_bytes()),
        None => Ok(want == "-"),
    }
}

/// Writes a file if it has the name of a temporary one.
pub fn write<B: Board>(board: &mut B, name: &str, bytes: &str) -> Result<(), Failed> {
    if name.starts_with("tmp-") {
        board.write_temp(name, bytes.as_bytes())
    } else {
        Err(Failed)
    }
}

/// Syncs a file if it is there, which takes a call to see.
pub fn sync<B: Board>(alloc: Global, board: &mut B, name: &str) -> Result<(), Failed> {
    match board.read(alloc, name, 0) {
        Ok(Some(_)) => board.sync_temp(name),
        _ => Err(Failed),
    }
}

/// Renames a file if it is there, which takes a call to see.
pub fn rename<B: Board>(alloc: Global, board: &mut B, from: &str, to: &str) -> Result<(), Failed> {
    match board.read(alloc, from, 0) {
        Ok(Some(_)) => board.rename(from, to),
        _ => Err(Failed),
    }
}
