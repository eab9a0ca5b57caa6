//! A call's writes, and what the host keeps of it.

ghost use Rattle.std.specs.Prelude.{◌≡◌, ◌≤◌, OnOk, OnErr, IfOk, IsErr, length, option_copied};
ghost use Rattle.fault_count.specs.Causes.{HasCause};
ghost use Rattle.board_model.specs.Files.{IsTemporary};
ghost use Rattle.board_model.specs.Disk.{Follows, Leaves, Goes};
ghost use Rattle.label_tree.specs.Values.{value_in, with_value};
ghost use Rattle.pw_chip.specs.WordsBytes.{words_bytes};
ghost use Rattle.leaf_calls.specs.Dues.{due_of, Leaving, Done, EndsWith};

use crate::due::{due_of, write};
use crate::host::ChipHost;
use board_model::Board;
use fault_count::Failed;
use pw_chip::{Reply, Words};
use pw_leaf::LEAF_BYTES;
use pw_path::{Hash, Label};

/// Makes the writes of a call that the chip answered so, with these words after it. The host's tree follows the reply
/// already; `value` is what its label had before.
///
/// After a fault the host has its words, and the label its value again.
pub(crate) fn keep<B: Board>(
    board: &mut B,
    host: &mut ChipHost,
    label: Label,
    name: &str,
    value: &Hash,
    there: Option<&[u8; LEAF_BYTES]>,
    next: Words,
    reply: Reply,
) -> Result<Reply, Failed>
    requires short { length name.now ≤ 166 }
    requires plain { ¬ IsTemporary name.now }
    requires boot { 1 ≤ host.old.words.boot }
    requires next { 1 ≤ next.boot }
    ensures any_moment { Leaves (B.disk board.old) (B.disk board.new)
        (Leaving (words_bytes next) name.now
        (due_of host.old.words next (option_copied there.entry) reply)) }
    ensures done_or_not { EndsWith (words_bytes next) name.now
        (due_of host.old.words next (option_copied there.entry) reply) (B.disk board.old) (B.disk board.new) }
    ensures durable { OnOk result (Follows (Done (words_bytes next) name.now
        (due_of host.old.words next (option_copied there.entry) reply))
        (B.disk board.old).may_leave (B.disk board.new).may_leave) }
    ensures done { OnOk result (Goes (B.disk board.old) (B.disk board.new) (Done (words_bytes next) name.now
        (due_of host.old.words next (option_copied there.entry) reply))) }
    ensures reply { IfOk result (λ told. told ≡ reply) }
    ensures words { OnOk result (host.new.words ≡ next) }
    ensures tree { OnOk result (value_in host.new.tree ≡ value_in host.old.tree) }
    ensures old_words { OnErr result (host.new.words ≡ host.old.words) }
    ensures old_tree { OnErr result
        (value_in host.new.tree ≡ with_value (value_in host.old.tree) label value.now) }
    ensures cause { HasCause (B.faults board.old) (B.faults board.new) (IsErr result) }
{
    let due = due_of(&host.words, &next, there, &reply);
    match write(board, &next.write(), name, &due) {
        Ok(()) => {
            host.words = next;
            Ok(reply)
        }
        Err(Failed) => {
            host.tree.set(label, value);
            Err(Failed)
        }
    }
}
