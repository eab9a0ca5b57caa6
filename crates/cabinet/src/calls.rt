//! The calls of a cabinet.

ghost use Rattle.std.specs.Prelude.{◌≡◌, ◌≤◌, ◌<◌, Some, None, length, take, option_map, IsOk, IsErr, IsErrOf, IfOk, IfErr, IfSome, is_ok, if◌then◌else◌};
ghost use Rattle.std.specs.FinMap.{get};
ghost use Rattle.fault_count.specs.Causes.{HasCause};
ghost use Rattle.board_model.specs.Disk.{Unchanged};
ghost use Rattle.cabinet.specs.Edits.{Edit, File, Words, Changes, Agrees, IsSettled};
ghost use Rattle.cabinet.specs.Names.{with_name, without_name, names_read, HasRoom};
ghost use Rattle.cabinet.specs.Named.{KeepsNames, unsure_changed, unsure_read};
ghost use Rattle.cabinet.specs.Held.{board_of, names_of, accounts_of, most_of};
ghost use Rattle.cabinet.specs.Faults.{IsReadFault};

use crate::cabinet::Cabinet;
use crate::fault::{CabinetFault, fault_of};
use crate::names::{forget, hold};
use board_model::Board;
use ct_bytes::{Blob, Text};
use fault_count::Failed;
use record_names::RecordName;
use std::alloc::Global;

/// One byte more than the longest record has, so that a longer one is outside its grammar.
const READ_MOST: usize = 49_182;

impl<B: Board> Cabinet<B> {
    /// The bytes of a record, at most 49,182, and `None` where there is no such record, whose name is then
    /// held no longer. The faults are `Failed` and `NoMemory`.
    pub fn get(&mut self, alloc: Global, name: &RecordName) -> Result<Option<Blob>, CabinetFault>
        ensures content { IfOk result (λ found. IfSome (B.disk (board_of self.old)).now
            (λ now. found ≡ option_map (take 49182) (get now.files name.now))) }
        ensures unchanged { Unchanged (B.disk (board_of self.old)) (B.disk (board_of self.new)) }
        ensures only { IfErr result IsReadFault }
        ensures cause { HasCause (B.faults (board_of self.old)) (B.faults (board_of self.new))
            (IsErrOf result CabinetFault.Failed) }
        ensures names { names_of self.new ≡ names_read result (names_of self.old) name.now }
        ensures named { KeepsNames (unsure_read (is_ok result) name.now)
            (B.disk (board_of self.old)) (names_of self.old) (B.disk (board_of self.new)) (names_of self.new) }
        ensures accounts { accounts_of self.new ≡ accounts_of self.old }
        ensures most { most_of self.new ≡ most_of self.old }
    {
        match self.board.read(alloc, name.as_str(), READ_MOST) {
            Ok(Some(bytes)) => Ok(Some(bytes)),
            Ok(None) => {
                forget(&mut self.names, name);
                Ok(None)
            }
            Err(fault) => Err(fault_of(fault)),
        }
    }

    /// Makes or replaces a record of at most 49,181 bytes, whole or not at all. The cabinet holds its name,
    /// or has room for one more. Takes no memory.
    pub fn put(&mut self, name: &RecordName, bytes: &[u8]) -> Result<(), Failed>
        requires room { HasRoom (names_of self.old) (most_of self.old) name.now }
        requires size { length bytes.now ≤ 49181 }
        ensures changes { Changes (B.disk (board_of self.old)) (B.disk (board_of self.new))
            (File name.now (Some bytes.now)) (IsOk result) }
        ensures cause { HasCause (B.faults (board_of self.old)) (B.faults (board_of self.new)) (IsErr result) }
        // The name is held also where the put failed: its record may be there.
        ensures names { names_of self.new ≡ with_name (names_of self.old) name.now }
        ensures named { KeepsNames (unsure_changed (is_ok result) name.now)
            (B.disk (board_of self.old)) (names_of self.old) (B.disk (board_of self.new)) (names_of self.new) }
        ensures accounts { accounts_of self.new ≡ accounts_of self.old }
        ensures most { most_of self.new ≡ most_of self.old }
    {
        hold(&mut self.names, name);
        staged_file::put(&mut self.board, name.as_str(), bytes)
    }

    /// Removes a record, if it is there, whole or not at all. Takes no memory.
    pub fn remove(&mut self, name: &RecordName) -> Result<(), Failed>
        ensures changes { Changes (B.disk (board_of self.old)) (B.disk (board_of self.new))
            (File name.now None) (IsOk result) }
        ensures cause { HasCause (B.faults (board_of self.old)) (B.faults (board_of self.new)) (IsErr result) }
        // The name is held also where the removal failed: its record may be there.
        ensures names { names_of self.new
            ≡ (if is_ok result then without_name (names_of self.old) name.now else names_of self.old) }
        ensures named { KeepsNames (unsure_changed (is_ok result) name.now)
            (B.disk (board_of self.old)) (names_of self.old) (B.disk (board_of self.new)) (names_of self.new) }
        ensures accounts { accounts_of self.new ≡ accounts_of self.old }
        ensures most { most_of self.new ≡ most_of self.old }
    {
        match staged_file::remove(&mut self.board, name.as_str()) {
            Ok(()) => {
                forget(&mut self.names, name);
                Ok(())
            }
            Err(fault) => Err(fault),
        }
    }

    /// Makes all changes so far certain, those that failed among them. After `Ok` a crash leaves what is
    /// there now.
    pub fn settle(&mut self) -> Result<(), Failed>
        ensures settled { IsOk result → Agrees (B.disk (board_of self.old)) → IsSettled (B.disk (board_of self.new)) }
        ensures unchanged { Unchanged (B.disk (board_of self.old)) (B.disk (board_of self.new)) }
        ensures cause { HasCause (B.faults (board_of self.old)) (B.faults (board_of self.new)) (IsErr result) }
        ensures names { names_of self.new ≡ names_of self.old }
        ensures named { KeepsNames (λ unsure. unsure)
            (B.disk (board_of self.old)) (names_of self.old) (B.disk (board_of self.new)) (names_of self.new) }
        ensures accounts { accounts_of self.new ≡ accounts_of self.old }
        ensures most { most_of self.new ≡ most_of self.old }
    {
        self.board.sync_dir()
    }

    /// The chip's 256 bytes.
    pub fn load_words(&mut self) -> Result<[u8; 256], Failed>
        ensures content { IfOk result (λ words. IfSome (B.disk (board_of self.old)).now (λ now. words ≡ now.words)) }
        ensures unchanged { Unchanged (B.disk (board_of self.old)) (B.disk (board_of self.new)) }
        ensures cause { HasCause (B.faults (board_of self.old)) (B.faults (board_of self.new)) (IsErr result) }
        ensures names { names_of self.new ≡ names_of self.old }
        ensures named { KeepsNames (λ unsure. unsure)
            (B.disk (board_of self.old)) (names_of self.old) (B.disk (board_of self.new)) (names_of self.new) }
        ensures accounts { accounts_of self.new ≡ accounts_of self.old }
        ensures most { most_of self.new ≡ most_of self.old }
    {
        self.board.nv_load()
    }

    /// Stores the chip's 256 bytes, whole or not at all.
    pub fn store_words(&mut self, words: &[u8; 256]) -> Result<(), Failed>
        ensures changes { Changes (B.disk (board_of self.old)) (B.disk (board_of self.new))
            (Words words.now) (IsOk result) }
        ensures cause { HasCause (B.faults (board_of self.old)) (B.faults (board_of self.new)) (IsErr result) }
        ensures names { names_of self.new ≡ names_of self.old }
        ensures named { KeepsNames (λ unsure. unsure)
            (B.disk (board_of self.old)) (names_of self.old) (B.disk (board_of self.new)) (names_of self.new) }
        ensures accounts { accounts_of self.new ≡ accounts_of self.old }
        ensures most { most_of self.new ≡ most_of self.old }
    {
        self.board.nv_store(words)
    }

    /// The names of the records that are there, each once, and besides only those of failed calls.
    pub fn names(&self) -> &[RecordName]
        ensures value { result.now ≡ names_of self.now }
    {
        &self.names
    }

    /// The accounts: those that were named, in the order given, then those that were found.
    pub fn accounts(&self) -> &[Text]
        ensures value { result.now ≡ accounts_of self.now }
    {
        &self.accounts
    }

    /// For how many names there is room.
    pub fn most(&self) -> usize
        ensures value { result ≡ most_of self.now }
    {
        self.most
    }

    /// The board.
    pub fn into_board(self) -> B
        ensures value { result ≡ board_of self }
    {
        let Cabinet {
            board,
            names,
            accounts,
            most,
        } = self;
        let _ = (names, accounts, most);
        board
    }
}
