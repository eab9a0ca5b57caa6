//! Opening: temporary files are removed, and names are found.

ghost use Rattle.std.specs.Prelude.{◌≡◌, ◌⊎◌, ℕ, List, None, [], ◌∷◌, ◌++◌, codes, nat_eq, Contains, OnOk, IsErr, IfOk};
ghost use Rattle.std.specs.List.{starts_with};
ghost use Rattle.std.specs.FinMap.{get};
ghost use Rattle.fault_count.specs.Causes.{HasCause};
ghost use Rattle.board_model.specs.Files.{IsTemporary};
ghost use Rattle.board_model.specs.Disk.{Image, Disk, Leaves, Goes};
ghost use Rattle.staged_file.specs.Staged.{Kept};
ghost use Rattle.record_names.specs.Names.{IsRecordName};
ghost use Rattle.cabinet.specs.Opening.{LacksOnceSynced, Lacks, AreRead};

use board_model::Board;
use ct_bytes::{NoMemory, Text};
use fault_count::Failed;
use record_names::RecordName;
use std::alloc::Global;

// Whether it is the name of a temporary file.
fn is_temporary(name: &str) -> bool
    ensures { result ≡ starts_with nat_eq name.now (codes "tmp-") }
{
    name.as_bytes().starts_with(b"tmp-")
}

// Removes the file if it is temporary. It is gone once the directory is synced.
fn remove_temporary<B: Board>(board: &mut B, file: &str) -> Result<(), Failed>
    ensures any_moment { Leaves (B.disk board.old) (B.disk board.new) Kept }
    ensures kept { Goes (B.disk board.old) (B.disk board.new) Kept }
    ensures gone { OnOk result (IsTemporary file.now → LacksOnceSynced (B.disk board.new) file.now) }
    ensures stays { (q : List ℕ) → LacksOnceSynced (B.disk board.old) q → LacksOnceSynced (B.disk board.new) q }
    ensures cause { HasCause (B.faults board.old) (B.faults board.new) (IsErr result) }
{
    if !is_temporary(file) {
        return Ok(());
    }
    board.remove(file)
}

/// Removes the temporary files among these, and makes that last.
pub fn clear<B: Board>(board: &mut B, files: &[Text]) -> Result<(), Failed>
    // At each moment the other files and the words are as they were.
    ensures any_moment { Leaves (B.disk board.old) (B.disk board.new) Kept }
    ensures kept { Goes (B.disk board.old) (B.disk board.new) Kept }
    // After Ok no crash leaves one of these temporary files.
    ensures gone { OnOk result ((q : List ℕ) → Contains files.now q → IsTemporary q → Lacks (B.disk board.new) q) }
    ensures cause { HasCause (B.faults board.old) (B.faults board.new) (IsErr result) }
{
    for file in files {
        if let Err(fault) = remove_temporary(board, file.as_str()) {
            return Err(fault);
        }
    }
    board.sync_dir()
}

// Adds the name of a file, if it is a record's.
fn add_name(names: &mut Vec<RecordName>, file: &str) -> Result<(), NoMemory>
    ensures found { OnOk result (IsRecordName file.now → names.new.items ≡ names.old.items ++ file.now ∷ []) }
    ensures only { OnOk result ((names.new.items ≡ names.old.items)
        ⊎ (IsRecordName file.now × (names.new.items ≡ names.old.items ++ file.now ∷ []))) }
{
    match RecordName::read(file) {
        Some(name) => {
            names.push(name)?;
            Ok(())
        }
        None => Ok(()),
    }
}

/// The names of records among these, in their order.
pub fn record_names(alloc: Global, files: &[Text]) -> Result<Vec<RecordName>, NoMemory>
    ensures { IfOk result (λ names. AreRead files.now names.items) }
{
    let mut names = Vec::new(alloc);
    for file in files {
        add_name(&mut names, file.as_str())?;
    }
    Ok(names)
}
