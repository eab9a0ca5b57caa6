//! How a cabinet is opened.

ghost use Rattle.std.specs.Prelude.{◌≡◌, ◌≤◌, ℕ, List, [], Contains, IfOk, IfErr, IsErrOf, MatchResult, vec_capacity};
ghost use Rattle.fault_count.specs.Causes.{HasCause};
ghost use Rattle.board_model.specs.Files.{IsTemporary};
ghost use Rattle.board_model.specs.Disk.{Leaves, Goes};
ghost use Rattle.staged_file.specs.Staged.{Kept};
ghost use Rattle.cabinet.specs.Opening.{AreFound, Opened, accounts_found};
ghost use Rattle.cabinet.specs.Named.{HasNames};
ghost use Rattle.cabinet.specs.OpenFaults.{IsFoundFault, IsOpenFault};
ghost use Rattle.cabinet.specs.Held.{board_of, names_of, accounts_of, most_of};

use crate::accounts::{add_found, add_named};
use crate::cabinet::Cabinet;
use crate::fault::{CabinetFault, fault_of};
use crate::opening::{clear, record_names};
use board_model::Board;
use ct_bytes::{NoMemory, Text};
use record_names::RecordName;
use std::alloc::Global;

/// The most accounts that a run has.
const MOST_ACCOUNTS: usize = 64;

// All accounts, named or found.
fn all_accounts(alloc: Global, named: &[Text], names: &[RecordName]) -> Result<Vec<Text>, NoMemory>
    ensures { IfOk result (λ all. all.items ≡ accounts_found named.now names.now) }
{
    let mut all = Vec::new(alloc);
    add_named(alloc, &mut all, named)?;
    add_found(alloc, &mut all, names)?;
    Ok(all)
}

// The names and accounts of these files, with room for so many names.
fn found(
    alloc: Global,
    files: &[Text],
    named: &[Text],
    most: usize,
) -> Result<(Vec<RecordName>, Vec<Text>), CabinetFault>
    ensures found { IfOk result (λ both. AreFound files.now named.now most both.0.items both.1.items) }
    ensures room { IfOk result (λ both. most ≤ vec_capacity both.0) }
    ensures fault { IfErr result (IsFoundFault files.now named.now most) }
{
    let Ok(mut names) = record_names(alloc, files) else {
        return Err(CabinetFault::NoMemory);
    };
    let Ok(accounts) = all_accounts(alloc, named, &names) else {
        return Err(CabinetFault::NoMemory);
    };
    if accounts.len() > MOST_ACCOUNTS || names.len() > most {
        return Err(CabinetFault::TooMany {
            accounts: accounts.len(),
            names: names.len(),
        });
    }
    if names.reserve(most - names.len()).is_err() {
        return Err(CabinetFault::NoMemory);
    }
    Ok((names, accounts))
}

// Opens the board.
fn open<B: Board>(
    alloc: Global,
    board: &mut B,
    named: &[Text],
    most: usize,
) -> Result<(Vec<RecordName>, Vec<Text>), CabinetFault>
    ensures any_moment { Leaves (B.disk board.old) (B.disk board.new) Kept }
    ensures kept { Goes (B.disk board.old) (B.disk board.new) Kept }
    ensures opened { IfOk result (λ both. Opened (B.disk board.old) (B.disk board.new) named.now most both.0.items both.1.items) }
    ensures named { IfOk result (λ both. HasNames [] (B.disk board.new) both.0.items) }
    ensures room { IfOk result (λ both. most ≤ vec_capacity both.0) }
    ensures fault { IfErr result (IsOpenFault (B.disk board.old) named.now most) }
    ensures cause { HasCause (B.faults board.old) (B.faults board.new) (IsErrOf result CabinetFault.Failed) }
{
    let files = match board.list(alloc) {
        Ok(files) => files,
        Err(fault) => return Err(fault_of(fault)),
    };
    if clear(board, &files).is_err() {
        return Err(CabinetFault::Failed);
    }
    found(alloc, &files, named, most)
}

impl<B: Board> Cabinet<B> {
    /// Opens a cabinet over a board, with room for `most` names.
    ///
    /// It lists the board, removes the temporary files, finds the names of records and their accounts, and
    /// takes all memory. The accounts are those that are named, each once, in the order given, and then the
    /// others of the records, in rising order of bytes. The faults are `Failed`; `TooMany`, with both
    /// numbers, where there are over 64 accounts or over `most` names; and `NoMemory`. After a fault the
    /// board is given back.
    pub fn begin(
        alloc: Global,
        board: B,
        accounts: Vec<Text>,
        most: usize,
    ) -> Result<Cabinet<B>, (CabinetFault, B)>
        ensures opened { IfOk result (λ cabinet. Opened (B.disk board) (B.disk (board_of cabinet)) accounts.items most (names_of cabinet) (accounts_of cabinet)) }
        // The names are those of the records that are there, and no name is unsure.
        ensures named { IfOk result (λ cabinet. HasNames [] (B.disk (board_of cabinet)) (names_of cabinet)) }
        ensures most { IfOk result (λ cabinet. most_of cabinet ≡ most) }
        ensures fault { IfErr result (λ refused. IsOpenFault (B.disk board) accounts.items most refused.0) }
        // At each moment the other files and the words are as they were.
        ensures any_moment { MatchResult result
            (λ cabinet. Leaves (B.disk board) (B.disk (board_of cabinet)) Kept)
            (λ refused. Leaves (B.disk board) (B.disk refused.1) Kept) }
        ensures kept { MatchResult result
            (λ cabinet. Goes (B.disk board) (B.disk (board_of cabinet)) Kept)
            (λ refused. Goes (B.disk board) (B.disk refused.1) Kept) }
        ensures cause { MatchResult result
            (λ cabinet. B.faults (board_of cabinet) ≡ B.faults board)
            (λ refused. HasCause (B.faults board) (B.faults refused.1) (refused.0 ≡ CabinetFault.Failed)) }
    {
        let mut board = board;
        match open(alloc, &mut board, &accounts, most) {
            Ok((names, accounts)) => Ok(Cabinet {
                board,
                names,
                accounts,
                most,
            }),
            Err(fault) => Err((fault, board)),
        }
    }
}
