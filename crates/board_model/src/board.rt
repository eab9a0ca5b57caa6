//! The device that all state stands on.

ghost use Rattle.std.specs.Prelude.{◌≡◌, ◌⊎◌, ℕ, ◌≤◌, Option, None, option_map, take, IsTrue};
ghost use Rattle.std.specs.Prelude.{IfOk, IfSome, OnOk, IsErr, IsErrOf};
ghost use Rattle.std.specs.FinMap.{get, keys, contains_key};
ghost use Rattle.fault_count.specs.Causes.{HasCause};
ghost use Rattle.fault_count.specs.Told.{Becomes};
ghost use Rattle.board_model.specs.Files.{IsTemporary};
ghost use Rattle.board_model.specs.Disk.{Image, Disk, Same, SameBut, Written, Renamed, Removed};
ghost use Rattle.board_model.specs.Disk.{Stored, Maybe, Follows, Leaves, Goes, GoesOrNot};
ghost use Rattle.board_model.specs.Disk.{Unchanged, Ticked, IsWholeIn};

use ct_bytes::{Blob, Text};
use fault_count::Failed;
use std::alloc::Global;

/// Why a call that takes memory has no answer.
#[derive(Clone, Copy, Debug, PartialEq, Eq)]
pub enum BoardFault {
    /// The device failed, and its count of faults rose.
    Failed,
    /// There was no memory.
    NoMemory,
}

/// One device: a directory of files, and a chip store of 256 bytes.
///
/// From its last write until it is synced a temporary file may hold any bytes after a crash, or be
/// absent, and so may a file that it is renamed to before that. A rename or a removal is done whole
/// or not at all until the directory is synced. Where a call that changes something fails, its
/// change is done whole or not at all, except that a failed write may leave any bytes.
pub trait Board {
    /// What is there, what a crash may leave, and the ticks.
    ghost disk: { Self → Disk };

    /// How often a call has failed. It never falls, and stays at 2^64 - 1 once it is there.
    ghost faults: { Self → ℕ };

    /// The names of all files, each once, in the order of their bytes.
    fn list(&mut self, alloc: Global) -> Result<Vec<Text>, BoardFault>
        // Where the content is told, the names are those of its files.
        ensures content { IfOk result (λ names.
            IfSome (disk self.old).now (λ now. names.items ≡ keys now.files)) }
        ensures unchanged { Unchanged (disk self.old) (disk self.new) }
        ensures cause { HasCause (faults self.old) (faults self.new)
            (IsErrOf result BoardFault.Failed) };

    /// The first `most` bytes of a file at most, and `None` where there is no such file.
    fn read(&mut self, alloc: Global, name: &str, most: usize) -> Result<Option<Blob>, BoardFault>
        ensures content { IfOk result (λ found. IfSome (disk self.old).now
            (λ now. found ≡ option_map (take most) (get now.files name.now))) }
        ensures unchanged { Unchanged (disk self.old) (disk self.new) }
        ensures cause { HasCause (faults self.old) (faults self.new)
            (IsErrOf result BoardFault.Failed) };

    /// Makes or replaces a temporary file. Until it is synced, and after a fault, it may hold any
    /// bytes.
    fn write_temp(&mut self, name: &str, bytes: &[u8]) -> Result<(), Failed>
        requires { IsTemporary name.now }
        ensures written { OnOk result
            (Becomes (disk self.old).now (disk self.new).now (Written name.now bytes.now)) }
        ensures goes { Goes (disk self.old) (disk self.new) (SameBut name.now) }
        ensures crash { Leaves (disk self.old) (disk self.new) (SameBut name.now) }
        ensures ticks { OnOk result (Ticked (disk self.old) (disk self.new)) }
        ensures cause { HasCause (faults self.old) (faults self.new) (IsErr result) };

    /// Makes a temporary file last: after `Ok` it is whole in each image that has it.
    fn sync_temp(&mut self, name: &str) -> Result<(), Failed>
        requires { IfSome (disk self.old).now (λ now. IsTrue (contains_key now.files name.now)) }
        // Each image lacks the file, or has what is there now.
        ensures whole { OnOk result ((i : Image) → (disk self.new).may_leave i
            → (get i.files name.now ≡ None) ⊎ IsWholeIn name.now (disk self.new).now i) }
        // Once the directory is synced as well, each image has what is there now.
        ensures synced { OnOk result ((i : Image) → (disk self.new).once_synced i
            → IsWholeIn name.now (disk self.new).now i) }
        ensures same { (disk self.new).now ≡ (disk self.old).now }
        ensures goes { Goes (disk self.old) (disk self.new) (SameBut name.now) }
        ensures crash { Leaves (disk self.old) (disk self.new) (SameBut name.now) }
        ensures ticks { OnOk result (Ticked (disk self.old) (disk self.new)) }
        ensures cause { HasCause (faults self.old) (faults self.new) (IsErr result) };

    /// Gives the file `from` the name `to`, in place of what has that name.
    fn rename(&mut self, from: &str, to: &str) -> Result<(), Failed>
        requires { IfSome (disk self.old).now (λ now. IsTrue (contains_key now.files from.now)) }
        ensures done { OnOk result
            (Goes (disk self.old) (disk self.new) (Renamed from.now to.now)) }
        ensures done_or_not { GoesOrNot (disk self.old) (disk self.new)
            (Renamed from.now to.now) }
        ensures crash { Leaves (disk self.old) (disk self.new)
            (Maybe (Renamed from.now to.now)) }
        ensures ticks { OnOk result (Ticked (disk self.old) (disk self.new)) }
        ensures cause { HasCause (faults self.old) (faults self.new) (IsErr result) };

    /// Removes a file. Where there is none of that name, that is `Ok`.
    fn remove(&mut self, name: &str) -> Result<(), Failed>
        ensures done { OnOk result (Goes (disk self.old) (disk self.new) (Removed name.now)) }
        ensures done_or_not { GoesOrNot (disk self.old) (disk self.new) (Removed name.now) }
        ensures crash { Leaves (disk self.old) (disk self.new) (Maybe (Removed name.now)) }
        ensures ticks { OnOk result (Ticked (disk self.old) (disk self.new)) }
        ensures cause { HasCause (faults self.old) (faults self.new) (IsErr result) };

    /// Makes the directory last: after `Ok` each earlier rename and removal stands in each image,
    /// and so do the words that are there now.
    fn sync_dir(&mut self) -> Result<(), Failed>
        ensures stands { OnOk result ((i : Image) → (disk self.new).may_leave i
            → (disk self.old).once_synced i) }
        ensures unchanged { Unchanged (disk self.old) (disk self.new) }
        ensures ticks { OnOk result (Ticked (disk self.old) (disk self.new)) }
        ensures cause { HasCause (faults self.old) (faults self.new) (IsErr result) };

    /// The 256 bytes of the chip store. A new chip has 256 zero bytes.
    fn nv_load(&mut self) -> Result<[u8; 256], Failed>
        ensures content { IfOk result (λ words.
            IfSome (disk self.old).now (λ now. words ≡ now.words)) }
        ensures unchanged { Unchanged (disk self.old) (disk self.new) }
        ensures cause { HasCause (faults self.old) (faults self.new) (IsErr result) };

    /// Stores the 256 bytes of the chip, whole or not at all. After `Ok` they last.
    fn nv_store(&mut self, words: &[u8; 256]) -> Result<(), Failed>
        ensures lasts { OnOk result
            (Follows (Stored words.now) (disk self.old).may_leave (disk self.new).may_leave) }
        ensures done { OnOk result (Goes (disk self.old) (disk self.new) (Stored words.now)) }
        ensures done_or_not { GoesOrNot (disk self.old) (disk self.new) (Stored words.now) }
        ensures crash { Leaves (disk self.old) (disk self.new) (Maybe (Stored words.now)) }
        ensures ticks { OnOk result (Ticked (disk self.old) (disk self.new)) }
        ensures cause { HasCause (faults self.old) (faults self.new) (IsErr result) };

    /// What a crash may leave now, it might have left since any earlier moment.
    ghost counts_now: { (board : Self) (t : ℕ) (i : Image) → t ≤ (disk board).ticks
        → (disk board).may_leave i → (disk board).left_since t i };

    /// What a crash might have left since a moment, it might have left since any earlier one.
    ghost since_earlier: { (board : Self) (t u : ℕ) (i : Image) → t ≤ u
        → (disk board).left_since u i → (disk board).left_since t i };

    /// Since this very moment there is nothing else.
    ghost only_now: { (board : Self) (i : Image)
        → (disk board).left_since (disk board).ticks i → (disk board).may_leave i };

    /// What a crash may leave once the directory is synced, it may leave now.
    ghost synced_now: { (board : Self) (i : Image)
        → (disk board).once_synced i → (disk board).may_leave i };

    /// What is there now is one of these images.
    ghost is_image: { (board : Self) → IfSome (disk board).now (disk board).once_synced };
}
