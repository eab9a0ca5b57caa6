//! Files and words, as a board in memory keeps them.

ghost use Rattle.std.specs.Prelude.{◌≡◌, OnOk, OnErr, IfOk, option_map, take};
ghost use Rattle.std.specs.FinMap.{get};
ghost use Rattle.mem_board.specs.Content.{image_of};
ghost use Rattle.mem_board.specs.Images.{changed, changed_by};

use crate::change::{Change, Outcome};
use crate::file_map::FileMap;
use ct_bytes::{Blob, NoMemory, Text};
use std::alloc::Global;

#[derive(Drop)]
pub struct Content {
    pub files: FileMap,
    pub words: [u8; 256],
}

impl Content {
    // The same content.
    pub fn copy(&self) -> Result<Content, NoMemory>
        ensures value { IfOk result (λ copy. image_of copy ≡ image_of self.now) }
    {
        let files = self.files.copy()?;
        Ok(Content {
            files,
            words: self.words,
        })
    }

    // The first bytes of a file.
    pub fn read(&self, alloc: Global, name: &str, most: usize) -> Result<Option<Blob>, NoMemory>
        ensures value { IfOk result (λ found.
            found ≡ option_map (take most) (get (image_of self.now).files name.now)) }
    {
        let name = Text::from_str(alloc, name)?;
        match self.files.get(&name) {
            Some(bytes) => {
                let bytes = bytes.as_slice();
                let count = bytes.len().min(most);
                Ok(Some(Blob::from_slice(alloc, &bytes[..count])?))
            }
            None => Ok(None),
        }
    }

    // Does a change.
    pub fn change(&mut self, change: &Change) -> Result<(), NoMemory>
        ensures ok { OnOk result (image_of self.new ≡ changed change.now (image_of self.old)) }
        ensures err { OnErr result (image_of self.new ≡ image_of self.old) }
    {
        match change {
            Change::Write(name, bytes) => self.files.insert(name.copy()?, bytes.copy()?),
            Change::SyncTemp(_) => Ok(()),
            Change::Rename(from, to) => self.files.rename(from, to),
            Change::Remove(name) => {
                self.files.remove(name);
                Ok(())
            }
            Change::SyncDir => Ok(()),
            Change::Store(words) => {
                self.words = *words;
                Ok(())
            }
        }
    }

    // Does a change, unless it failed and isn't done.
    pub fn change_by(&mut self, change: &Change, outcome: Outcome) -> Result<(), NoMemory>
        ensures ok { OnOk result
            (image_of self.new ≡ changed_by change.now outcome (image_of self.old)) }
        ensures err { OnErr result (image_of self.new ≡ image_of self.old) }
    {
        match outcome {
            Outcome::FailedNot => Ok(()),
            Outcome::Done => self.change(change),
            Outcome::FailedDone => self.change(change),
        }
    }
}
