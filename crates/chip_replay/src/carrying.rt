//! Carrying out what the log answered.

ghost use Rattle.std.specs.Prelude.{◌≡◌, ◌<◌, ◌≤◌, ◌^◌, None, OnOk, OnErr, IsErr, IfSome, length, option_copied};
ghost use Rattle.fault_count.specs.Causes.{HasCause};
ghost use Rattle.board_model.specs.Files.{IsTemporary};
ghost use Rattle.board_model.specs.Disk.{Follows, Leaves, Goes};
ghost use Rattle.pw_path.specs.Tree.{root};
ghost use Rattle.pw_chip.specs.State.{IsSameEra};
ghost use Rattle.pw_chip.specs.WordsBytes.{words_bytes};
ghost use Rattle.leaf_table.specs.Rows.{row_in};
ghost use Rattle.label_tree.specs.Values.{value_in};
ghost use Rattle.pin_ops.specs.Following.{IsFound};
ghost use Rattle.chip_replay.specs.Records.{rows_by};
ghost use Rattle.chip_replay.specs.Carrying.{Carrying, Carried, EndsCarried, words_after, values_then};

use crate::undoing::undo;
use crate::writing::{put_record, remove_record};
use board_model::Board;
use fault_count::Failed;
use label_tree::Tree;
use leaf_table::LeafTable;
use pin_ops::Resync;
use pw_chip::Words;

// The words and the tree after an answer that the tree follows already: an insert is undone.
pub(crate) fn follow(words: &mut Words, tree: &mut Tree, answer: &Resync, now: u64)
    requires { now < 2 ^ 40 }
    ensures words { words.new ≡ words_after words.old (value_in tree.old) answer.now now }
    ensures tree { value_in tree.new ≡ values_then answer.now (value_in tree.old) }
    ensures in_step { words.old.log.newest.root ≡ root (value_in tree.old)
        → words.new.log.newest.root ≡ root (value_in tree.new) }
    ensures era { IsSameEra words.old words.new }
{
    if let Resync::Inserted(label) = answer {
        undo(words, tree, *label, now);
    }
}

// Makes the one write of an answer, after which these are the words.
pub(crate) fn write<B: Board>(
    board: &mut B,
    words: &Words,
    name: Option<&str>,
    answer: &Resync,
) -> Result<(), Failed>
    requires short { IfSome name (λ name. length name.now ≤ 166) }
    requires plain { IfSome name (λ name. ¬ IsTemporary name.now) }
    requires boot { 1 ≤ words.now.boot }
    ensures any_moment { Leaves (B.disk board.old) (B.disk board.new)
        (Carrying (words_bytes words.now) (option_copied name.entry) answer.now) }
    ensures durable { OnOk result (Follows (Carried (words_bytes words.now) (option_copied name.entry) answer.now)
        (B.disk board.old).may_leave (B.disk board.new).may_leave) }
    ensures done { OnOk result (Goes (B.disk board.old) (B.disk board.new)
        (Carried (words_bytes words.now) (option_copied name.entry) answer.now)) }
    ensures done_or_not { EndsCarried (words_bytes words.now) (option_copied name.entry) answer.now
        (B.disk board.old) (B.disk board.new) }
    ensures cause { HasCause (B.faults board.old) (B.faults board.new) (IsErr result) }
{
    match answer {
        Resync::InStep => Ok(()),
        Resync::Lost { .. } => Ok(()),
        Resync::Inserted(_) => board.nv_store(&words.write()),
        Resync::Put(_, bytes) => put_record(board, name, bytes),
        Resync::Removed(_) => remove_record(board, name),
        Resync::Emptied => remove_record(board, name),
    }
}

// Lets the records follow an answer.
pub(crate) fn keep(leaves: &mut LeafTable, answer: &Resync)
    ensures { row_in leaves.new ≡ rows_by answer.now (row_in leaves.old) }
{
    match answer {
        Resync::Put(label, bytes) => leaves.put(*label, bytes),
        Resync::Removed(label) => leaves.remove(*label),
        Resync::Emptied => leaves.clear(),
        Resync::InStep | Resync::Inserted(_) | Resync::Lost { .. } => {}
    }
}
