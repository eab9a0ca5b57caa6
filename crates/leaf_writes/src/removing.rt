//! The words are stored, and a record is removed after.

ghost use Rattle.std.specs.Prelude.{None, OnOk, IsErr};
ghost use Rattle.fault_count.specs.Causes.{HasCause};
ghost use Rattle.board_model.specs.Disk.{Follows, Leaves, Goes};
ghost use Rattle.leaf_writes.specs.Writes.{StoredWith, NoneOneOrBoth, EndsAtOneOf};

use board_model::Board;
use fault_count::Failed;

/// Stores the chip's words, and then removes the record of this name, if it is there.
///
/// At each moment a crash leaves neither write, the words alone, or both; after `Ok` it leaves both. Takes no memory.
pub fn store_and_remove<B: Board>(
    board: &mut B,
    words: &[u8; 256],
    name: &str,
) -> Result<(), Failed>
    // Each image since the start is one of the start with neither write, with the words alone, or with both.
    ensures any_moment { Leaves (B.disk board.old) (B.disk board.new) (NoneOneOrBoth words.now name.now None) }
    // After Ok each image is one of the start with both.
    ensures durable { OnOk result (Follows (StoredWith words.now name.now None)
        (B.disk board.old).may_leave (B.disk board.new).may_leave) }
    ensures done { OnOk result (Goes (B.disk board.old) (B.disk board.new) (StoredWith words.now name.now None)) }
    // After a fault neither write is done, the words are stored alone, or both are, and so it is in each image once
    // the directory is synced.
    ensures done_or_not { EndsAtOneOf words.now name.now None (B.disk board.old) (B.disk board.new) }
    ensures cause { HasCause (B.faults board.old) (B.faults board.new) (IsErr result) }
{
    board.nv_store(words)?;
    staged_file::remove(board, name)
}
