//! A removal that lasts.

ghost use Rattle.std.specs.Prelude.{◌≡◌, ◌⊎◌, None, OnOk, IsErr};
ghost use Rattle.fault_count.specs.Causes.{HasCause};
ghost use Rattle.board_model.specs.Disk.{Follows, Leaves, Goes};
ghost use Rattle.staged_file.specs.Staged.{Kept, Replaced, KeptOr};

use board_model::Board;
use fault_count::Failed;

/// Removes a file, if it is there, whole or not at all; also a temporary one.
///
/// At each moment a crash leaves what it would have left before, with the file or without it; after
/// `Ok` without it only. Takes no memory.
pub fn remove<B: Board>(board: &mut B, name: &str) -> Result<(), Failed>
    // Each image since the start is one of the start, with the file or without it.
    ensures any_moment { Leaves (B.disk board.old) (B.disk board.new)
        (KeptOr (Replaced name.now None)) }
    // After Ok each image is one of the start without the file.
    ensures durable { OnOk result (Follows (Replaced name.now None)
        (B.disk board.old).may_leave (B.disk board.new).may_leave) }
    ensures done { OnOk result (Goes (B.disk board.old) (B.disk board.new)
        (Replaced name.now None)) }
    // After a fault the file is gone or isn't, and so in each image once the directory is synced.
    ensures done_or_not { Goes (B.disk board.old) (B.disk board.new) Kept
        ⊎ Goes (B.disk board.old) (B.disk board.new) (Replaced name.now None) }
    ensures cause { HasCause (B.faults board.old) (B.faults board.new) (IsErr result) }
{
    board.remove(name)?;
    board.sync_dir()
}
