//! What several tests share: a platform over a board in memory, and ten steps of three accounts.

ghost use Rattle.std.specs.Prelude.{◌<◌, IsTrue, length};
ghost use Rattle.platform_core.specs.Asked.{IsOwn, HasRoomFor};
ghost use Rattle.platform_core.specs.Held.{accounts_of, names_of, most_of};
ghost use Rattle.platform_core.specs.Records.{IsRecordOf, account_at};

use board_model::Board;
use ct_bytes::{Blob, NoMemory, Text};
use mem_board::{Fail, MemBoard};
use platform_core::{OpenFault, Platform};
use record_names::RecordName;
use share_api::{Listing, Op, Reply, Write};
use std::alloc::Global;
use std::test;

pub type Outcome = Result<(), test::Fail>;

/// The accounts that are named.
pub const NAMED: [&str; 3] = ["ann", "bob", "cy"];

/// The most bytes of a record.
const RECORD_BYTES: usize = 49_181;

/// The files at the start: one that only looks like a record's, one of a leaf, one that is no record's, and a
/// temporary one.
const FILES: [(&str, &str); 4] = [
    ("ann.fac.main.01", "kept"),
    ("bob.leaf.00007", "kept"),
    ("notes", "kept"),
    ("tmp-ann.stash", "torn"),
];

/// A change of a record.
#[derive(Clone, Copy)]
pub enum Change {
    Put(&'static str, &'static str),
    Remove(&'static str),
}

/// Ten steps: the account's number, the change, and what the account has after it.
pub const STEPS: [(u8, Change, &str); 10] = [
    (
        0,
        Change::Put("ann.fac.main.1", "factor"),
        "ann.fac.main.1=factor ",
    ),
    (
        0,
        Change::Put("ann.stash", "one"),
        "ann.fac.main.1=factor ann.stash=one ",
    ),
    (1, Change::Put("bob.stash", "new"), "bob.stash=new "),
    (2, Change::Put("cy.file.66", "text"), "cy.file.66=text "),
    (
        0,
        Change::Put("ann.stash", "two"),
        "ann.fac.main.1=factor ann.stash=two ",
    ),
    (1, Change::Remove("bob.stash"), ""),
    (
        2,
        Change::Put("cy.stash", "small"),
        "cy.file.66=text cy.stash=small ",
    ),
    (0, Change::Remove("ann.fac.main.1"), "ann.stash=two "),
    (1, Change::Put("bob.stash", "again"), "bob.stash=again "),
    (2, Change::Remove("cy.file.66"), "cy.stash=small "),
];

/// What an account has after so many of the steps.
pub fn shown_after(account: u8, count: usize) -> &'static str {
    let count = count.min(STEPS.len());
    for back in 0..count {
        let (number, _, after) = STEPS[count - 1 - back];
        if number == account {
            return after;
        }
    }
    ""
}

/// A board in memory with these files, zero words and these failing calls.
pub fn board_of(
    alloc: Global,
    files: &[(&str, &str)],
    fails: &[Fail],
) -> Result<MemBoard, NoMemory> {
    let mut list = Vec::new(alloc);
    for (name, bytes) in files {
        let name = Text::from_str(alloc, name)?;
        let bytes = Blob::from_slice(alloc, bytes.as_bytes())?;
        list.push((name, bytes))?;
    }
    MemBoard::new(alloc, list, [0; 256], fails.to_vec(alloc)?)
}

/// The board at the start, whose listed calls fail.
pub fn first_board(alloc: Global, fails: &[Fail]) -> Result<MemBoard, NoMemory> {
    board_of(alloc, &FILES, fails)
}

/// The files that are no account's are as they were, and none is temporary.
pub fn check_others(alloc: Global, board: &mut MemBoard) -> Outcome {
    for name in ["ann.fac.main.01", "bob.leaf.00007", "notes"] {
        match board.read(alloc, name, 100)? {
            Some(bytes) if bytes.as_slice() == b"kept".as_slice() => {}
            _ => return Err(test::Fail::new(name)),
        }
    }
    for name in board.list(alloc)? {
        if name.as_str().starts_with("tmp-") {
            return Err(test::Fail::new(name.as_str()));
        }
    }
    Ok(())
}

// The texts.
fn texts(alloc: Global, words: &[&str]) -> Result<Vec<Text>, NoMemory> {
    let mut texts = Vec::new(alloc);
    for word in words {
        texts.push(Text::from_str(alloc, word)?)?;
    }
    Ok(texts)
}

/// A platform over the board, with the three accounts.
pub fn opened(alloc: Global, board: MemBoard) -> Result<Platform<MemBoard>, OpenFault> {
    let Ok(named) = texts(alloc, &NAMED) else {
        return Err(OpenFault::NoMemory);
    };
    match Platform::begin(alloc, board, named) {
        Ok(platform) => Ok(platform),
        Err((fault, _)) => Err(fault),
    }
}

// Whether the name is that of a record of the account, and not a leaf's.
fn is_record_of(account: &str, name: &RecordName) -> bool
    ensures { IsTrue result → IsRecordOf account.now name.now }
{
    let _text = name.as_str();
    name.account() == account && name.leaf_label().is_none()
}

// Whether the step is one on records of the account.
fn is_own(account: &str, op: &Op) -> bool
    ensures { IsTrue result → IsOwn account.now op.now }
{
    match op {
        Op::Names => true,
        Op::Get(name) => is_record_of(account, name),
        Op::Do(Write::Put(name, bytes)) => {
            is_record_of(account, name) && bytes.as_slice().len() <= RECORD_BYTES
        }
        Op::Do(Write::Remove(name)) => is_record_of(account, name),
        _ => false,
    }
}

// Whether the account is there, the step is one on its records, and there is room for it.
fn is_asked(platform: &Platform<MemBoard>, account: u8, op: &Op) -> bool
    ensures account { IsTrue result → account < length (accounts_of platform.now) }
    ensures own { IsTrue result → IsOwn (account_at (accounts_of platform.now) account) op.now }
    ensures room { IsTrue result → HasRoomFor (names_of platform.now) (most_of platform.now) op.now }
{
    match platform.accounts().get(account as usize) {
        Some(name) => is_own(name.as_str(), op) && platform.has_room(op),
        None => false,
    }
}

/// The reply to a step, where it is one on records of the account, and there is room for it.
pub fn reply_to(
    alloc: Global,
    platform: &mut Platform<MemBoard>,
    account: u8,
    op: Op,
) -> Result<Reply, test::Fail> {
    if !is_asked(platform, account, &op) {
        return Err(test::Fail::new("no such step"));
    }
    Ok(platform.step(alloc, account, 0, op).reply)
}

// What a change asks of a platform.
fn write_of(alloc: Global, change: Change) -> Result<Op, test::Fail> {
    let (name, bytes) = match change {
        Change::Put(name, bytes) => (name, Some(bytes)),
        Change::Remove(name) => (name, None),
    };
    let Some(name) = RecordName::read(name) else {
        return Err(test::Fail::new(name));
    };
    match bytes {
        Some(bytes) => Ok(Op::Do(Write::Put(name, Blob::from_slice(alloc, bytes.as_bytes())?))),
        None => Ok(Op::Do(Write::Remove(name))),
    }
}

/// Makes a change, and says whether it is done. Else it failed.
pub fn make(
    alloc: Global,
    platform: &mut Platform<MemBoard>,
    account: u8,
    change: Change,
) -> Result<bool, test::Fail> {
    let op = write_of(alloc, change)?;
    match reply_to(alloc, platform, account, op)? {
        Reply::Done => Ok(true),
        Reply::Failed => Ok(false),
        _ => Err(test::Fail::new("a change is done, or failed")),
    }
}

// The account's names.
fn names_of(
    alloc: Global,
    platform: &mut Platform<MemBoard>,
    account: u8,
) -> Result<Listing, test::Fail> {
    match reply_to(alloc, platform, account, Op::Names)? {
        Reply::Listed(listing) => Ok(listing),
        _ => Err(test::Fail::new("names are listed")),
    }
}

// The bytes of a record that is there.
fn bytes_of(
    alloc: Global,
    platform: &mut Platform<MemBoard>,
    account: u8,
    name: &RecordName,
) -> Result<Blob, test::Fail> {
    match reply_to(alloc, platform, account, Op::Get(*name))? {
        Reply::Found(Some(bytes)) => Ok(bytes),
        _ => Err(test::Fail::new(name.as_str())),
    }
}

/// The account's records, as text.
pub fn shown(
    alloc: Global,
    platform: &mut Platform<MemBoard>,
    account: u8,
) -> Result<String, test::Fail> {
    let mut text = String::new(alloc);
    let listing = names_of(alloc, platform, account)?;
    for name in listing.names() {
        let bytes = bytes_of(alloc, platform, account, name)?;
        let bytes = str::from_utf8(bytes.as_slice())?;
        text.push_str(format!(in alloc; "{}={bytes} ", name.as_str())?.as_str())?;
    }
    Ok(text)
}

/// Whether each account has what its own steps among the first so many lead to.
pub fn shows(
    alloc: Global,
    platform: &mut Platform<MemBoard>,
    count: usize,
) -> Result<bool, test::Fail> {
    for account in 0..3u8 {
        let text = shown(alloc, platform, account)?;
        if text.as_str() != shown_after(account, count) {
            return Ok(false);
        }
    }
    Ok(true)
}
