//! The board over a real directory. It tells nothing, and counts each fault.

ghost use Rattle.std.specs.Prelude.{◌≡◌, ◌↔◌, false, IsTrue, IfOk, OnOk, OnErr, IsErr, IsErrOf};
ghost use Rattle.std.specs.Prelude.{IsSorted};
ghost use Rattle.std.specs.Ordering.{nat_cmp};
ghost use Rattle.std.specs.Cmp.Lexicographic.{slice_cmp};
ghost use Rattle.fault_count.specs.Causes.{HasCause};
ghost use Rattle.board_model.specs.Disk.{untold};

use crate::lock_file::LockFile;
use crate::real_folder::RealFolder;
use crate::{Board, BoardFault};
use ct_bytes::{Blob, NoMemory, Text};
use fault_count::{Failed, FaultCount};
use std::alloc::Global;
use std::fs::{File, OpenFile};
use std::io::{self, ErrorKind, Read, Write};
use std::rt::Files;

/// A directory `DIR` that has the files, and `DIR.chip` that has the chip's words in its file
/// `words`.
///
/// The chip's directory is locked for as long as the board is there, so that a second board over it can't
/// be opened. After a sync that failed each later call fails: the system may have dropped what it was to
/// write, and would report the next sync as done.
#[derive(Drop)]
pub struct FileBoard<R, F = File> {
    folder: RealFolder<R, F>,
    faults: FaultCount,
    lost: bool,
}

// Counts a fault where there is one.
fn counted<T: Drop>(faults: &mut FaultCount, outcome: io::Result<T>) -> Result<T, Failed>
    ensures cause { HasCause faults.old faults.new (IsErr result) }
{
    match outcome {
        Ok(value) => Ok(value),
        Err(_) => Err(faults.raise()),
    }
}

// The same where want of memory is an answer of its own.
fn answered<T: Drop>(faults: &mut FaultCount, outcome: io::Result<T>) -> Result<T, BoardFault>
    ensures value { IfOk result (λ value. outcome ≡ Ok value) }
    ensures cause { HasCause faults.old faults.new (IsErrOf result BoardFault.Failed) }
{
    match outcome {
        Ok(value) => Ok(value),
        Err(error) if error.kind() == ErrorKind::OutOfMemory => Err(BoardFault::NoMemory),
        Err(_) => {
            let _ = faults.raise();
            Err(BoardFault::Failed)
        }
    }
}

impl<R, F> FileBoard<R, F>
where
    R: Files<File = F> + AllocGlobal + Clone + Drop,
    F: Read + Write + OpenFile + LockFile + Drop,
{
    ghost use Rattle.board_model.specs.RealBoard.{faults_of, is_lost, Fails};

    /// Opens the directory that `dir` names, and makes it and the chip's where they are absent, for their
    /// owner alone.
    ///
    /// The chip's directory has the resolved name of the other with `.chip` behind it, so that one directory
    /// has one chip. `Failed` where one of them can't be made, as where a file is in the way or `dir` is the
    /// root, and where another board has the chip's directory open.
    pub fn open(rt: R, alloc: Global, dir: &str) -> Result<FileBoard<R, F>, BoardFault>
        ensures no_fault { IfOk result (λ board. faults_of board ≡ 0) }
        ensures usable { IfOk result (λ board. is_lost board ≡ false) }
    {
        let mut faults = FaultCount::new();
        let folder = answered(&mut faults, RealFolder::open(rt, alloc, dir))?;
        Ok(FileBoard {
            folder,
            faults,
            lost: false,
        })
    }

    // Fails once a sync has failed.
    fn usable(&mut self) -> Result<(), Failed>
        ensures fails { IsErr result ↔ IsTrue (is_lost self.old) }
        ensures stays { is_lost self.new ≡ is_lost self.old }
        ensures cause { HasCause (faults_of self.old) (faults_of self.new) (IsErr result) }
    {
        if self.lost {
            Err(self.faults.raise())
        } else {
            Ok(())
        }
    }

    // The same where want of memory is an answer of its own.
    fn readable(&mut self) -> Result<(), BoardFault>
        ensures fails { IsErrOf result BoardFault.Failed ↔ IsTrue (is_lost self.old) }
        ensures only { OnErr result (IsErrOf result BoardFault.Failed) }
        ensures stays { is_lost self.new ≡ is_lost self.old }
        ensures cause { HasCause (faults_of self.old) (faults_of self.new)
            (IsErrOf result BoardFault.Failed) }
    {
        match self.usable() {
            Ok(()) => Ok(()),
            Err(Failed) => Err(BoardFault::Failed),
        }
    }

    // The open file of this name. That it can't be opened loses nothing.
    fn file(&mut self, name: &str) -> Result<F, Failed>
        ensures fails { Fails self.old self.new (IsErr result) }
        ensures cause { HasCause (faults_of self.old) (faults_of self.new) (IsErr result) }
    {
        self.usable()?;
        let file = self.folder.file(name);
        counted(&mut self.faults, file)
    }

    // The new words of the chip, whole in a file that isn't synced.
    fn new_words(&mut self, words: &[u8; 256]) -> Result<F, Failed>
        ensures fails { Fails self.old self.new (IsErr result) }
        ensures cause { HasCause (faults_of self.old) (faults_of self.new) (IsErr result) }
    {
        self.usable()?;
        let written = self.folder.write_words(words);
        counted(&mut self.faults, written)?;
        let file = self.folder.new_words();
        counted(&mut self.faults, file)
    }

    // Ends a sync. Where it failed, what was to be synced may be lost without another word.
    fn synced(&mut self, outcome: io::Result<()>) -> Result<(), Failed>
        ensures loses { OnErr result (IsTrue (is_lost self.new)) }
        ensures stays { OnOk result (is_lost self.new ≡ is_lost self.old) }
        ensures cause { HasCause (faults_of self.old) (faults_of self.new) (IsErr result) }
    {
        match outcome {
            Ok(()) => Ok(()),
            Err(_) => {
                self.lost = true;
                Err(self.faults.raise())
            }
        }
    }
}

impl<R, F> Board for FileBoard<R, F>
where
    R: Files<File = F> + AllocGlobal + Clone + Drop,
    F: Read + Write + OpenFile + LockFile + Drop,
{
    ghost use Rattle.board_model.specs.RealBoard.{faults_of, is_lost, Fails, Syncs};

    ghost disk = { λ b. untold };

    ghost faults = { λ b. faults_of b };

    ghost counts_now = { λ b t i le is. is };

    ghost since_earlier = { λ b t u i le was. was };

    ghost only_now = { λ b i was. was };

    ghost synced_now = { λ b i is. is };

    ghost is_image = { λ b. tt };

    fn list(&mut self, alloc: Global) -> Result<Vec<Text>, BoardFault>
        ensures sorted { IfOk result (λ names. IsSorted (slice_cmp nat_cmp) names.items) }
        ensures cause { HasCause (faults_of self.old) (faults_of self.new)
            (IsErrOf result BoardFault.Failed) }
        ensures lost { Fails self.old self.new (IsErrOf result BoardFault.Failed) }
    {
        self.readable()?;
        let names = self.folder.names(alloc);
        answered(&mut self.faults, names)
    }

    fn read(&mut self, alloc: Global, name: &str, most: usize) -> Result<Option<Blob>, BoardFault>
        ensures cause { HasCause (faults_of self.old) (faults_of self.new)
            (IsErrOf result BoardFault.Failed) }
        ensures lost { Fails self.old self.new (IsErrOf result BoardFault.Failed) }
    {
        self.readable()?;
        let bytes = self.folder.bytes(alloc, name, most);
        match bytes {
            Err(error) if error.kind() == ErrorKind::NotFound => Ok(None),
            bytes => {
                let bytes = answered(&mut self.faults, bytes)?;
                match Blob::from_slice(alloc, &bytes) {
                    Ok(blob) => Ok(Some(blob)),
                    Err(NoMemory) => Err(BoardFault::NoMemory),
                }
            }
        }
    }

    fn write_temp(&mut self, name: &str, bytes: &[u8]) -> Result<(), Failed>
        ensures cause { HasCause (faults_of self.old) (faults_of self.new) (IsErr result) }
        ensures lost { Fails self.old self.new (IsErr result) }
    {
        self.usable()?;
        let written = self.folder.write(name, bytes);
        counted(&mut self.faults, written)
    }

    fn sync_temp(&mut self, name: &str) -> Result<(), Failed>
        ensures cause { HasCause (faults_of self.old) (faults_of self.new) (IsErr result) }
        ensures lost { IsTrue (is_lost self.old) → IsErr result }
        ensures stays { IsTrue (is_lost self.old) → IsTrue (is_lost self.new) }
        ensures sound { OnOk result (is_lost self.new ≡ false) }
    {
        let file = self.file(name)?;
        let synced = file.sync_all();
        self.synced(synced)
    }

    fn rename(&mut self, from: &str, to: &str) -> Result<(), Failed>
        ensures cause { HasCause (faults_of self.old) (faults_of self.new) (IsErr result) }
        ensures lost { Fails self.old self.new (IsErr result) }
    {
        self.usable()?;
        let renamed = self.folder.rename(from, to);
        counted(&mut self.faults, renamed)
    }

    fn remove(&mut self, name: &str) -> Result<(), Failed>
        ensures cause { HasCause (faults_of self.old) (faults_of self.new) (IsErr result) }
        ensures lost { Fails self.old self.new (IsErr result) }
    {
        self.usable()?;
        let removed = self.folder.remove(name);
        counted(&mut self.faults, removed)
    }

    fn sync_dir(&mut self) -> Result<(), Failed>
        ensures cause { HasCause (faults_of self.old) (faults_of self.new) (IsErr result) }
        ensures lost { Syncs self.old self.new (IsErr result) }
    {
        self.usable()?;
        let synced = self.folder.sync_files();
        self.synced(synced)?;
        let synced = self.folder.sync_chip();
        self.synced(synced)
    }

    fn nv_load(&mut self) -> Result<[u8; 256], Failed>
        ensures cause { HasCause (faults_of self.old) (faults_of self.new) (IsErr result) }
        ensures lost { Fails self.old self.new (IsErr result) }
    {
        self.usable()?;
        let words = self.folder.words();
        counted(&mut self.faults, words)
    }

    fn nv_store(&mut self, words: &[u8; 256]) -> Result<(), Failed>
        ensures cause { HasCause (faults_of self.old) (faults_of self.new) (IsErr result) }
        ensures lost { IsTrue (is_lost self.old) → IsErr result }
        ensures stays { IsTrue (is_lost self.old) → IsTrue (is_lost self.new) }
        ensures sound { OnOk result (is_lost self.new ≡ false) }
    {
        let file = self.new_words(words)?;
        let synced = file.sync_all();
        self.synced(synced)?;
        let replaced = self.folder.replace_words();
        counted(&mut self.faults, replaced)?;
        let synced = self.folder.sync_chip();
        self.synced(synced)
    }
}
