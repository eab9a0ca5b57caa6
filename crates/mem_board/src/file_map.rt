//! Files by name.

ghost use Rattle.std.specs.Prelude.{◌≡◌, OnOk, OnErr, IfOk, option_copied};
ghost use Rattle.std.specs.FinMap.{empty, get, insert, remove, keys};
ghost use Rattle.board_model.specs.Files.{renamed};
ghost use Rattle.mem_board.specs.FileList.{with_files};

use ct_bytes::{Blob, NoMemory, Text};
use std::alloc::Global;
use std::collections::BTreeMap;
use std::marker::Model;

/// Files, seen as the map from their names to their bytes.
#[derive(Drop)]
pub struct FileMap {
    alloc: Global,
    entries: BTreeMap<Text, Blob>,
}

impl Model for FileMap {
    ghost use Rattle.std.specs.FinMap.{code, from_entries};
    ghost use Rattle.std.specs.Coded.{coded_list, coded_ℕ};
    ghost use Rattle.board_model.specs.Files.{Files};

    ghost Value = { Files };

    ghost coded = { code (coded_list coded_ℕ) (coded_list coded_ℕ) };

    ghost view = { λ m. from_entries m.entries.entries };
}

impl FileMap {
    /// No files.
    pub fn new(alloc: Global) -> FileMap
        ensures value { result ≡ empty }
    {
        FileMap {
            alloc,
            entries: BTreeMap::new(alloc),
        }
    }

    /// The bytes of a file.
    pub fn get(&self, name: &Text) -> Option<&Blob>
        ensures value { option_copied result ≡ get self.now name.now }
    {
        self.entries.get(name)
    }

    /// Makes or replaces a file.
    pub fn insert(&mut self, name: Text, bytes: Blob) -> Result<(), NoMemory>
        ensures ok { OnOk result (self.new ≡ insert self.old name bytes) }
        ensures err { OnErr result (self.new ≡ self.old) }
    {
        self.entries.insert(name, bytes)?;
        Ok(())
    }

    /// Removes a file, if it is there.
    pub fn remove(&mut self, name: &Text)
        ensures value { self.new ≡ remove self.old name.now }
    {
        self.entries.remove(name);
    }

    /// Gives a file, if it is there, another name, in place of what has it.
    pub fn rename(&mut self, from: &Text, to: &Text) -> Result<(), NoMemory>
        ensures ok { OnOk result (self.new ≡ renamed self.old from.now to.now) }
        ensures err { OnErr result (self.new ≡ self.old) }
    {
        let bytes = match self.get(from) {
            Some(bytes) => bytes.copy()?,
            None => return Ok(()),
        };
        if from != to {
            self.insert(to.copy()?, bytes)?;
            self.remove(from);
        }
        Ok(())
    }

    /// The names of the files, in the order of their bytes.
    pub fn names(&self, alloc: Global) -> Result<Vec<Text>, NoMemory>
        ensures value { IfOk result (λ names. names.items ≡ keys self.now) }
    {
        let mut names = Vec::new(alloc);
        for name in self.entries.keys() {
            names.push(name.copy()?)?;
        }
        Ok(names)
    }

    /// The same files.
    pub fn copy(&self) -> Result<FileMap, NoMemory>
        ensures value { IfOk result (λ copy. copy ≡ self.now) }
    {
        let mut copy = FileMap::new(self.alloc);
        for (name, bytes) in &self.entries {
            copy.insert(name.copy()?, bytes.copy()?)?;
        }
        Ok(copy)
    }

    /// The files of a list. Of several of one name the last stands.
    pub fn from_list(alloc: Global, files: Vec<(Text, Blob)>) -> Result<FileMap, NoMemory>
        ensures value { IfOk result (λ map. map ≡ with_files empty files.items) }
    {
        let mut map = FileMap::new(alloc);
        for (name, bytes) in files {
            map.insert(name, bytes)?;
        }
        Ok(map)
    }
}
