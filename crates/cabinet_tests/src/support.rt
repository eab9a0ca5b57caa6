//! What several tests share: a cabinet over a board in memory, and eight calls of it.

ghost use Rattle.std.specs.Prelude.{◌≡◌};
ghost use Rattle.cabinet.specs.Held.{most_of};

use board_model::Board;
use cabinet::{Cabinet, CabinetFault, RecordName};
use ct_bytes::{Blob, NoMemory, Text};
use fault_count::Failed;
use mem_board::{Fail, MemBoard};
use std::alloc::Global;
use std::test;

pub type Outcome = Result<(), test::Fail>;

/// For how many names there is room.
pub const MOST: usize = 100;

/// The most bytes of a record.
pub const RECORD_BYTES: usize = 49_181;

/// The files at the start: one that is no record's, one that only looks like a record's, and a temporary one.
const FILES: [(&str, &str); 3] = [
    ("ann.fac.main.01", "kept"),
    ("notes", "kept"),
    ("tmp-ann.stash", "torn"),
];

/// A call of a cabinet.
#[derive(Clone, Copy)]
pub enum Step {
    Put(&'static str, &'static str),
    Remove(&'static str),
    Store(u8),
}

/// Eight calls, and what a cabinet shows after each.
pub const STEPS: [(Step, &str); 8] = [
    (
        Step::Put("ann.fac.main.1", "factor"),
        "ann.fac.main.1=factor 0",
    ),
    (
        Step::Put("ann.stash", "one"),
        "ann.fac.main.1=factor ann.stash=one 0",
    ),
    (Step::Store(1), "ann.fac.main.1=factor ann.stash=one 1"),
    (
        Step::Put("ann.stash", "two"),
        "ann.fac.main.1=factor ann.stash=two 1",
    ),
    (
        Step::Put("bob.stash", "new"),
        "ann.fac.main.1=factor ann.stash=two bob.stash=new 1",
    ),
    (
        Step::Remove("ann.fac.main.1"),
        "ann.stash=two bob.stash=new 1",
    ),
    (Step::Store(2), "ann.stash=two bob.stash=new 2"),
    (Step::Remove("bob.stash"), "ann.stash=two 2"),
];

/// What a cabinet shows after so many of the calls.
pub fn shown_after(count: usize) -> &'static str {
    if count == 0 {
        return "0";
    }
    match STEPS.get(count - 1) {
        Some((_, shown)) => shown,
        None => STEPS[7].1,
    }
}

/// A board in memory with these files, zero words and these failing calls.
pub fn board_of(
    alloc: Global,
    files: &[(&str, &str)],
    fails: &[Fail],
) -> Result<MemBoard, NoMemory> {
    let mut list = Vec::new(alloc);
    for (name, bytes) in files {
        let name = Text::from_str(alloc, name)?;
        let bytes = Blob::from_slice(alloc, bytes.as_bytes())?;
        list.push((name, bytes))?;
    }
    MemBoard::new(alloc, list, [0; 256], fails.to_vec(alloc)?)
}

/// The board at the start, whose listed calls fail.
pub fn first_board(alloc: Global, fails: &[Fail]) -> Result<MemBoard, NoMemory> {
    board_of(alloc, &FILES, fails)
}

/// How many accounts an opening finds, or its fault.
pub fn accounts_found(alloc: Global, board: MemBoard, most: usize) -> Result<usize, CabinetFault> {
    match Cabinet::begin(alloc, board, Vec::new(alloc), most) {
        Ok(cabinet) => Ok(cabinet.accounts().len()),
        Err((fault, _)) => Err(fault),
    }
}

/// A cabinet over a board in memory, with room for 100 names.
#[derive(Drop)]
pub struct Opened {
    cabinet: Cabinet<MemBoard>,
    ghost room: { most_of cabinet ≡ 100 },
}

impl Opened {
    /// A cabinet over the board.
    pub fn over(alloc: Global, board: MemBoard) -> Result<Opened, test::Fail> {
        match Cabinet::begin(alloc, board, Vec::new(alloc), MOST) {
            Ok(cabinet) => Ok(Opened { cabinet }),
            Err((fault, _)) => Err(test::Fail::new(format_args!("{fault:?}"))),
        }
    }

    /// A cabinet over the board at the start, whose listed calls fail.
    pub fn with_fails(alloc: Global, fails: &[Fail]) -> Result<Opened, test::Fail> {
        Opened::over(alloc, first_board(alloc, fails)?)
    }

    /// Puts a record.
    pub fn put(&mut self, name: &str, bytes: &[u8]) -> Result<(), Failed> {
        let Some(name) = RecordName::read(name) else {
            return Err(Failed);
        };
        if bytes.len() > RECORD_BYTES || self.cabinet.names().len() >= MOST {
            return Err(Failed);
        }
        self.cabinet.put(&name, bytes)
    }

    // Removes a record.
    fn remove(&mut self, name: &str) -> Result<(), Failed> {
        match RecordName::read(name) {
            Some(name) => self.cabinet.remove(&name),
            None => Err(Failed),
        }
    }

    /// Makes one call.
    pub fn make(&mut self, step: Step) -> Result<(), Failed> {
        match step {
            Step::Put(name, bytes) => self.put(name, bytes.as_bytes()),
            Step::Remove(name) => self.remove(name),
            Step::Store(byte) => self.cabinet.store_words(&[byte; 256]),
        }
    }

    /// Makes certain what is there now.
    pub fn settle(&mut self) -> Result<(), Failed> {
        self.cabinet.settle()
    }

    /// The bytes of a record.
    pub fn get(&mut self, alloc: Global, name: &str) -> Result<Option<Blob>, test::Fail> {
        match RecordName::read(name) {
            Some(name) => Ok(self.cabinet.get(alloc, &name)?),
            None => Err(test::Fail::new(name)),
        }
    }

    /// The records that are held and the first of the chip's bytes, as text.
    pub fn shown(&mut self, alloc: Global) -> Result<String, test::Fail> {
        let mut text = String::new(alloc);
        for name in self.cabinet.names().to_vec(alloc)? {
            if let Some(bytes) = self.cabinet.get(alloc, &name)? {
                let bytes = str::from_utf8(bytes.as_slice())?;
                text.push_str(format!(in alloc; "{}={bytes} ", name.as_str())?.as_str())?;
            }
        }
        let first = self.cabinet.load_words()?[0];
        text.push_str(format!(in alloc; "{first}")?.as_str())?;
        Ok(text)
    }

    /// The board.
    pub fn into_board(self) -> MemBoard {
        let Opened { cabinet } = self;
        cabinet.into_board()
    }
}
