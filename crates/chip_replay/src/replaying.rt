//! A replay over a board.

ghost use Rattle.std.specs.Prelude.{◌≡◌, ◌<◌, ◌≤◌, ◌^◌, OnOk, OnErr, IfOk, IsErr, IfSome, length, option_copied};
ghost use Rattle.fault_count.specs.Causes.{HasCause};
ghost use Rattle.board_model.specs.Files.{IsTemporary};
ghost use Rattle.leaf_table.specs.Rows.{row_in};
ghost use Rattle.leaf_calls.specs.Calls.{host_of};
ghost use Rattle.chip_replay.specs.Replaying.{Replays};

use crate::asking::ask;
use crate::carrying::{follow, keep, write};
use board_model::Board;
use fault_count::Failed;
use leaf_calls::ChipHost;
use leaf_table::LeafTable;
use pin_ops::Resync;

/// Brings the host's tree and its leaf records in step with the chip, by at most the newest log entry, at a moment in
/// seconds.
///
/// The tree is that of the records. `name` is that of the record at `due_label`'s label, where there is such a
/// record; without a name no record is written. A try, a reset or a remove whose record lacks is redone: its record is
/// put or removed. An insert whose record lacks is undone: the chip removes the leaf again, and its words are stored.
/// Each of these is one write.
///
/// The answer is that of `pin_ops::resync`. Where it is `Lost` nothing changes. `Failed` comes where the write failed;
/// then the words and the records are as they were, the tree has to be built again, and the board may have the write
/// or not. Takes no memory.
pub fn replay<B: Board>(
    board: &mut B,
    host: &mut ChipHost,
    leaves: &mut LeafTable,
    name: Option<&str>,
    now: u64,
) -> Result<Resync, Failed>
    requires short { IfSome name (λ name. length name.now ≤ 166) }
    requires plain { IfSome name (λ name. ¬ IsTemporary name.now) }
    requires boot { 1 ≤ host.old.words.boot }
    requires moment { now < 2 ^ 40 }
    ensures replays { Replays (option_copied name.entry) now (host_of host.old) (row_in leaves.old) (B.disk board.old)
        (B.disk board.new) (host_of host.new) (row_in leaves.new) result }
    ensures cause { HasCause (B.faults board.old) (B.faults board.new) (IsErr result) }
{
    let mut next = host.words;
    let answer = ask(&mut next, &mut host.tree, leaves);
    follow(&mut next, &mut host.tree, &answer, now);
    match write(board, &next, name, &answer) {
        Ok(()) => {
            host.words = next;
            keep(leaves, &answer);
            Ok(answer)
        }
        Err(Failed) => Err(Failed),
    }
}
