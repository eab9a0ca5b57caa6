//! One record's change on the board.

ghost use Rattle.std.specs.Prelude.{◌≤◌, Some, None, OnOk, IsErr, IfSome, length, option_copied};
ghost use Rattle.fault_count.specs.Causes.{HasCause};
ghost use Rattle.board_model.specs.Files.{IsTemporary};
ghost use Rattle.board_model.specs.Disk.{Follows, Leaves, Goes};
ghost use Rattle.chip_replay.specs.Carrying.{Changing, Changed, EndsChanged};

use board_model::Board;
use fault_count::Failed;

// Puts the record of this name, if there is one.
pub(crate) fn put_record<B: Board>(
    board: &mut B,
    name: Option<&str>,
    bytes: &[u8],
) -> Result<(), Failed>
    requires short { IfSome name (λ name. length name.now ≤ 166) }
    requires plain { IfSome name (λ name. ¬ IsTemporary name.now) }
    ensures any_moment { Leaves (B.disk board.old) (B.disk board.new) (Changing (option_copied name.entry) (Some bytes.now)) }
    ensures durable { OnOk result (Follows (Changed (option_copied name.entry) (Some bytes.now))
        (B.disk board.old).may_leave (B.disk board.new).may_leave) }
    ensures done { OnOk result (Goes (B.disk board.old) (B.disk board.new) (Changed (option_copied name.entry) (Some bytes.now))) }
    ensures done_or_not { EndsChanged (option_copied name.entry) (Some bytes.now) (B.disk board.old) (B.disk board.new) }
    ensures cause { HasCause (B.faults board.old) (B.faults board.new) (IsErr result) }
{
    match name {
        Some(name) => staged_file::put(board, name, bytes),
        None => Ok(()),
    }
}

// Removes the record of this name, if there is one.
pub(crate) fn remove_record<B: Board>(board: &mut B, name: Option<&str>) -> Result<(), Failed>
    ensures any_moment { Leaves (B.disk board.old) (B.disk board.new) (Changing (option_copied name.entry) None) }
    ensures durable { OnOk result (Follows (Changed (option_copied name.entry) None)
        (B.disk board.old).may_leave (B.disk board.new).may_leave) }
    ensures done { OnOk result (Goes (B.disk board.old) (B.disk board.new) (Changed (option_copied name.entry) None)) }
    ensures done_or_not { EndsChanged (option_copied name.entry) None (B.disk board.old) (B.disk board.new) }
    ensures cause { HasCause (B.faults board.old) (B.faults board.new) (IsErr result) }
{
    match name {
        Some(name) => staged_file::remove(board, name),
        None => Ok(()),
    }
}
