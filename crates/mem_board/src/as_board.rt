//! How a board in memory meets the trait.
//!
//! Each call has the trait's clauses, and says of itself that it fails exactly where the list names it or
//! there is no memory to store it.

ghost use Rattle.std.specs.Prelude.{◌≡◌, ◌⊎◌, None, option_map, take, IsTrue};
ghost use Rattle.std.specs.Prelude.{IfOk, IfSome, OnOk, IsErr, IsErrOf};
ghost use Rattle.std.specs.FinMap.{get, keys, contains_key};
ghost use Rattle.fault_count.specs.Causes.{HasCause};
ghost use Rattle.fault_count.specs.Told.{Becomes};
ghost use Rattle.board_model.specs.Files.{IsTemporary};
ghost use Rattle.board_model.specs.Disk.{Image, Same, SameBut, Written, Renamed, Removed, Stored};
ghost use Rattle.board_model.specs.Disk.{Maybe, Follows, Leaves, Goes, GoesOrNot, Unchanged};
ghost use Rattle.board_model.specs.Disk.{Ticked, IsWholeIn};
ghost use Rattle.mem_board.specs.Memory.{memory_of, faults_of, disk_at, Looks, Changes};

use crate::board::MemBoard;
use crate::change::Change;
use board_model::{Board, BoardFault};
use ct_bytes::{Blob, NoMemory, Text};
use fault_count::Failed;
use std::alloc::Global;

fn write_of(alloc: Global, name: &str, bytes: &[u8]) -> Result<Change, NoMemory>
    ensures value { IfOk result (λ change. change ≡ Change.Write name.now bytes.now) }
{
    let name = Text::from_str(alloc, name)?;
    let bytes = Blob::from_slice(alloc, bytes)?;
    Ok(Change::Write(name, bytes))
}

fn sync_of(alloc: Global, name: &str) -> Result<Change, NoMemory>
    ensures value { IfOk result (λ change. change ≡ Change.SyncTemp name.now) }
{
    Ok(Change::SyncTemp(Text::from_str(alloc, name)?))
}

fn rename_of(alloc: Global, from: &str, to: &str) -> Result<Change, NoMemory>
    ensures value { IfOk result (λ change. change ≡ Change.Rename from.now to.now) }
{
    let from = Text::from_str(alloc, from)?;
    let to = Text::from_str(alloc, to)?;
    Ok(Change::Rename(from, to))
}

fn removal_of(alloc: Global, name: &str) -> Result<Change, NoMemory>
    ensures value { IfOk result (λ change. change ≡ Change.Remove name.now) }
{
    Ok(Change::Remove(Text::from_str(alloc, name)?))
}

impl Board for MemBoard {
    ghost use Rattle.mem_board.specs.Memory.{memory_of, faults_of, disk_at};
    ghost use Rattle.mem_board.specs.ImageLaws.{counted, was_earlier, only_newest};
    ghost use Rattle.mem_board.specs.ImageLaws.{synced_is_image, now_is_image};

    ghost disk = { λ b. disk_at b };

    ghost faults = { λ b. faults_of b };

    ghost counts_now = { λ b t i le is. counted (memory_of b).first (memory_of b).calls t i is };

    ghost since_earlier = { λ b t u i le was.
        was_earlier (memory_of b).first (memory_of b).calls t u i le was };

    ghost only_now = { λ b i was. only_newest (memory_of b).first (memory_of b).calls i was };

    ghost synced_now = { λ b i is. synced_is_image (memory_of b).first (memory_of b).calls i is };

    ghost is_image = { λ b. now_is_image (memory_of b).first (memory_of b).calls };

    fn list(&mut self, alloc: Global) -> Result<Vec<Text>, BoardFault>
        ensures content { IfOk result (λ names.
            IfSome (disk_at self.old).now (λ now. names.items ≡ keys now.files)) }
        ensures unchanged { Unchanged (disk_at self.old) (disk_at self.new) }
        ensures cause { HasCause (faults_of self.old) (faults_of self.new)
            (IsErrOf result BoardFault.Failed) }
        ensures counted { Looks (memory_of self.old) (memory_of self.new)
            (IsErrOf result BoardFault.Failed) }
    {
        match self.look() {
            Ok(()) => match self.content.files.names(alloc) {
                Ok(names) => Ok(names),
                Err(NoMemory) => Err(BoardFault::NoMemory),
            },
            Err(Failed) => Err(BoardFault::Failed),
        }
    }

    fn read(&mut self, alloc: Global, name: &str, most: usize) -> Result<Option<Blob>, BoardFault>
        ensures content { IfOk result (λ found. IfSome (disk_at self.old).now
            (λ now. found ≡ option_map (take most) (get now.files name.now))) }
        ensures unchanged { Unchanged (disk_at self.old) (disk_at self.new) }
        ensures cause { HasCause (faults_of self.old) (faults_of self.new)
            (IsErrOf result BoardFault.Failed) }
        ensures counted { Looks (memory_of self.old) (memory_of self.new)
            (IsErrOf result BoardFault.Failed) }
    {
        match self.look() {
            Ok(()) => match self.content.read(alloc, name, most) {
                Ok(found) => Ok(found),
                Err(NoMemory) => Err(BoardFault::NoMemory),
            },
            Err(Failed) => Err(BoardFault::Failed),
        }
    }

    fn write_temp(&mut self, name: &str, bytes: &[u8]) -> Result<(), Failed>
        requires { IsTemporary name.now }
        ensures written { OnOk result
            (Becomes (disk_at self.old).now (disk_at self.new).now (Written name.now bytes.now)) }
        ensures goes { Goes (disk_at self.old) (disk_at self.new) (SameBut name.now) }
        ensures crash { Leaves (disk_at self.old) (disk_at self.new) (SameBut name.now) }
        ensures ticks { OnOk result (Ticked (disk_at self.old) (disk_at self.new)) }
        ensures cause { HasCause (faults_of self.old) (faults_of self.new) (IsErr result) }
        ensures counted { Changes (Change.Write name.now bytes.now)
            (memory_of self.old) (memory_of self.new) (IsErr result) }
    {
        let change = write_of(self.alloc, name, bytes);
        self.change(change)
    }

    fn sync_temp(&mut self, name: &str) -> Result<(), Failed>
        requires { IfSome (disk_at self.old).now (λ now. IsTrue (contains_key now.files name.now)) }
        ensures whole { OnOk result ((i : Image) → (disk_at self.new).may_leave i
            → (get i.files name.now ≡ None) ⊎ IsWholeIn name.now (disk_at self.new).now i) }
        ensures synced { OnOk result ((i : Image) → (disk_at self.new).once_synced i
            → IsWholeIn name.now (disk_at self.new).now i) }
        ensures same { (disk_at self.new).now ≡ (disk_at self.old).now }
        ensures goes { Goes (disk_at self.old) (disk_at self.new) (SameBut name.now) }
        ensures crash { Leaves (disk_at self.old) (disk_at self.new) (SameBut name.now) }
        ensures ticks { OnOk result (Ticked (disk_at self.old) (disk_at self.new)) }
        ensures cause { HasCause (faults_of self.old) (faults_of self.new) (IsErr result) }
        ensures counted { Changes (Change.SyncTemp name.now)
            (memory_of self.old) (memory_of self.new) (IsErr result) }
    {
        let change = sync_of(self.alloc, name);
        self.change(change)
    }

    fn rename(&mut self, from: &str, to: &str) -> Result<(), Failed>
        requires { IfSome (disk_at self.old).now (λ now. IsTrue (contains_key now.files from.now)) }
        ensures done { OnOk result
            (Goes (disk_at self.old) (disk_at self.new) (Renamed from.now to.now)) }
        ensures done_or_not { GoesOrNot (disk_at self.old) (disk_at self.new)
            (Renamed from.now to.now) }
        ensures crash { Leaves (disk_at self.old) (disk_at self.new)
            (Maybe (Renamed from.now to.now)) }
        ensures ticks { OnOk result (Ticked (disk_at self.old) (disk_at self.new)) }
        ensures cause { HasCause (faults_of self.old) (faults_of self.new) (IsErr result) }
        ensures counted { Changes (Change.Rename from.now to.now)
            (memory_of self.old) (memory_of self.new) (IsErr result) }
    {
        let change = rename_of(self.alloc, from, to);
        self.change(change)
    }

    fn remove(&mut self, name: &str) -> Result<(), Failed>
        ensures done { OnOk result (Goes (disk_at self.old) (disk_at self.new) (Removed name.now)) }
        ensures done_or_not { GoesOrNot (disk_at self.old) (disk_at self.new) (Removed name.now) }
        ensures crash { Leaves (disk_at self.old) (disk_at self.new) (Maybe (Removed name.now)) }
        ensures ticks { OnOk result (Ticked (disk_at self.old) (disk_at self.new)) }
        ensures cause { HasCause (faults_of self.old) (faults_of self.new) (IsErr result) }
        ensures counted { Changes (Change.Remove name.now)
            (memory_of self.old) (memory_of self.new) (IsErr result) }
    {
        let change = removal_of(self.alloc, name);
        self.change(change)
    }

    fn sync_dir(&mut self) -> Result<(), Failed>
        ensures stands { OnOk result ((i : Image) → (disk_at self.new).may_leave i
            → (disk_at self.old).once_synced i) }
        ensures unchanged { Unchanged (disk_at self.old) (disk_at self.new) }
        ensures ticks { OnOk result (Ticked (disk_at self.old) (disk_at self.new)) }
        ensures cause { HasCause (faults_of self.old) (faults_of self.new) (IsErr result) }
        ensures counted { Changes Change.SyncDir
            (memory_of self.old) (memory_of self.new) (IsErr result) }
    {
        self.change(Ok(Change::SyncDir))
    }

    fn nv_load(&mut self) -> Result<[u8; 256], Failed>
        ensures content { IfOk result (λ words.
            IfSome (disk_at self.old).now (λ now. words ≡ now.words)) }
        ensures unchanged { Unchanged (disk_at self.old) (disk_at self.new) }
        ensures cause { HasCause (faults_of self.old) (faults_of self.new) (IsErr result) }
        ensures counted { Looks (memory_of self.old) (memory_of self.new) (IsErr result) }
    {
        self.look()?;
        Ok(self.content.words)
    }

    fn nv_store(&mut self, words: &[u8; 256]) -> Result<(), Failed>
        ensures lasts { OnOk result
            (Follows (Stored words.now) (disk_at self.old).may_leave (disk_at self.new).may_leave) }
        ensures done { OnOk result (Goes (disk_at self.old) (disk_at self.new) (Stored words.now)) }
        ensures done_or_not { GoesOrNot (disk_at self.old) (disk_at self.new) (Stored words.now) }
        ensures crash { Leaves (disk_at self.old) (disk_at self.new) (Maybe (Stored words.now)) }
        ensures ticks { OnOk result (Ticked (disk_at self.old) (disk_at self.new)) }
        ensures cause { HasCause (faults_of self.old) (faults_of self.new) (IsErr result) }
        ensures counted { Changes (Change.Store words.now)
            (memory_of self.old) (memory_of self.new) (IsErr result) }
    {
        self.change(Ok(Change::Store(*words)))
    }
}
