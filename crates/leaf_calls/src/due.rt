//! What is due on the board after a call.

ghost use Rattle.std.specs.Prelude.{◌≡◌, ◌⊎◌, ◌≤◌, OnOk, IsErr, length, option_copied};
ghost use Rattle.fault_count.specs.Causes.{HasCause};
ghost use Rattle.board_model.specs.Files.{IsTemporary};
ghost use Rattle.board_model.specs.Disk.{Follows, Leaves, Goes};
ghost use Rattle.leaf_calls.specs.Dues.{due_of, due_record, Leaving, Done, EndsWith};

use board_model::Board;
use fault_count::Failed;
use leaf_writes::{store_and_put, store_and_remove};
use pw_chip::{Reply, Words};
use pw_leaf::LEAF_BYTES;

/// The write of a leaf's record that a call asks for, behind the store of the words.
#[derive(Clone, Copy, Drop)]
pub enum Due {
    /// Nothing changed.
    Nothing,
    /// The record is put.
    Put([u8; LEAF_BYTES]),
    /// The record is removed.
    Remove,
}

// A record is due, unless it is there and the words are the same.
fn due_record(
    old: &Words,
    new: &Words,
    there: Option<&[u8; LEAF_BYTES]>,
    leaf: &[u8; LEAF_BYTES],
) -> Due
    requires old { 1 ≤ old.now.boot }
    requires new { 1 ≤ new.now.boot }
    ensures value { result ≡ due_record old.now new.now (option_copied there.entry) leaf.now }
{
    let is_there = match there {
        Some(there) => *leaf == *there,
        None => false,
    };
    if new.write() == old.write() && is_there {
        Due::Nothing
    } else {
        Due::Put(*leaf)
    }
}

/// What is due after a reply. `there` is the leaf's record before the call, where it has one.
pub(crate) fn due_of(
    old: &Words,
    new: &Words,
    there: Option<&[u8; LEAF_BYTES]>,
    reply: &Reply,
) -> Due
    requires old { 1 ≤ old.now.boot }
    requires new { 1 ≤ new.now.boot }
    ensures value { result ≡ due_of old.now new.now (option_copied there.entry) reply.now }
{
    match reply {
        Reply::Done => Due::Remove,
        Reply::Inserted(leaf)
        | Reply::Released { leaf, .. }
        | Reply::Cleared(leaf)
        | Reply::Wrong(leaf) => due_record(old, new, there, leaf),
        _ => Due::Nothing,
    }
}

/// Stores the words, and then puts or removes the record of this name; nothing where nothing is due.
pub(crate) fn write<B: Board>(
    board: &mut B,
    words: &[u8; 256],
    name: &str,
    due: &Due,
) -> Result<(), Failed>
    requires short { length name.now ≤ 166 }
    requires plain { ¬ IsTemporary name.now }
    ensures any_moment { Leaves (B.disk board.old) (B.disk board.new) (Leaving words.now name.now due.now) }
    ensures durable { OnOk result (Follows (Done words.now name.now due.now)
        (B.disk board.old).may_leave (B.disk board.new).may_leave) }
    ensures done { OnOk result (Goes (B.disk board.old) (B.disk board.new) (Done words.now name.now due.now)) }
    ensures done_or_not { EndsWith words.now name.now due.now (B.disk board.old) (B.disk board.new) }
    ensures cause { HasCause (B.faults board.old) (B.faults board.new) (IsErr result) }
{
    match due {
        Due::Nothing => Ok(()),
        Due::Put(leaf) => store_and_put(board, words, name, leaf),
        Due::Remove => store_and_remove(board, words, name),
    }
}
