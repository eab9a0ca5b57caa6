//! The calls on leaves.

ghost use Rattle.std.specs.Prelude.{◌≡◌, ◌≤◌, ◌<◌, ◌^◌, None, Some, IsErr, length};
ghost use Rattle.fault_count.specs.Causes.{HasCause};
ghost use Rattle.board_model.specs.Files.{IsTemporary};
ghost use Rattle.label_tree.specs.Values.{value_in};
ghost use Rattle.pw_path.specs.Tree.{aux_of};
ghost use Rattle.pw_chip.specs.Calls.{Insert, Remove, Try, Reset};
ghost use Rattle.pw_chip.specs.Step.{step};
ghost use Rattle.leaf_calls.specs.Calls.{MakesCall, host_of};

use crate::host::{ChipHost, LeafPlace};
use crate::keeping::keep;
use board_model::Board;
use fault_count::Failed;
use pw_chip::Reply;
use pw_leaf::{LEAF_BYTES, NewLeafSecrets};
use pw_path::Hash;
use pw_types::Schedule;

/// Makes a leaf at a place that has none, at a moment in seconds: the chip's words are stored, and then the leaf's
/// record is put.
///
/// The reply is the chip's. `Failed` comes where a write failed; then the host has what it had, and the board may have
/// neither write, the words alone, or both.
pub fn insert_leaf<B: Board>(
    board: &mut B,
    host: &mut ChipHost,
    place: LeafPlace<'_>,
    new: &NewLeafSecrets,
    schedule: &Schedule,
    iv: [u8; 16],
    now: u64,
) -> Result<Reply, Failed>
    requires short { length place.name.now ≤ 166 }
    requires plain { ¬ IsTemporary place.name.now }
    requires boot { 1 ≤ host.old.words.boot }
    requires moment { now < 2 ^ 40 }
    ensures makes { MakesCall place.entry.label place.entry.name.now None
        (step host.old.words (Insert place.entry.label (aux_of (value_in host.old.tree) place.entry.label)
        (value_in host.old.tree place.entry.label) new.now.les new.now.hes new.now.reset schedule.now iv) now)
        (host_of host.old) (B.disk board.old) (B.disk board.new) (host_of host.new) result }
    ensures cause { HasCause (B.faults board.old) (B.faults board.new) (IsErr result) }
{
    let LeafPlace { label, name } = place;
    let value = host.tree.at(label);
    let mut next = host.words;
    let reply = pin_ops::insert(&mut next, &mut host.tree, label, new, schedule, iv, now);
    keep(board, host, label, name, &value, None, next, reply)
}

/// Shows a low-entropy secret to the leaf at a place, which has this record, at a moment in seconds. Where the try
/// counted the chip's words are stored, and then the leaf's new record is put.
///
/// The reply is the chip's. `Failed` comes where a write failed, as at `insert_leaf`.
pub fn try_leaf<B: Board>(
    board: &mut B,
    host: &mut ChipHost,
    place: LeafPlace<'_>,
    leaf: &[u8; LEAF_BYTES],
    les: &Hash,
    now: u64,
) -> Result<Reply, Failed>
    requires short { length place.name.now ≤ 166 }
    requires plain { ¬ IsTemporary place.name.now }
    requires boot { 1 ≤ host.old.words.boot }
    requires moment { now < 2 ^ 40 }
    ensures makes { MakesCall place.entry.label place.entry.name.now (Some leaf.now)
        (step host.old.words (Try place.entry.label (aux_of (value_in host.old.tree) place.entry.label) leaf.now les.now)
        now)
        (host_of host.old) (B.disk board.old) (B.disk board.new) (host_of host.new) result }
    ensures cause { HasCause (B.faults board.old) (B.faults board.new) (IsErr result) }
{
    let LeafPlace { label, name } = place;
    let value = host.tree.at(label);
    let mut next = host.words;
    let reply = pin_ops::try_pin(&mut next, &mut host.tree, label, leaf, les, now);
    keep(board, host, label, name, &value, Some(leaf), next, reply)
}

/// Shows a reset secret to the leaf at a place, which has this record, at a moment in seconds. Where the secret was the
/// leaf's the chip's words are stored, and then the leaf's new record is put.
///
/// The reply is the chip's. `Failed` comes where a write failed, as at `insert_leaf`.
pub fn reset_leaf<B: Board>(
    board: &mut B,
    host: &mut ChipHost,
    place: LeafPlace<'_>,
    leaf: &[u8; LEAF_BYTES],
    reset: &Hash,
    now: u64,
) -> Result<Reply, Failed>
    requires short { length place.name.now ≤ 166 }
    requires plain { ¬ IsTemporary place.name.now }
    requires boot { 1 ≤ host.old.words.boot }
    requires moment { now < 2 ^ 40 }
    ensures makes { MakesCall place.entry.label place.entry.name.now (Some leaf.now)
        (step host.old.words (Reset place.entry.label (aux_of (value_in host.old.tree) place.entry.label) leaf.now
        reset.now) now)
        (host_of host.old) (B.disk board.old) (B.disk board.new) (host_of host.new) result }
    ensures cause { HasCause (B.faults board.old) (B.faults board.new) (IsErr result) }
{
    let LeafPlace { label, name } = place;
    let value = host.tree.at(label);
    let mut next = host.words;
    let reply = pin_ops::reset(&mut next, &mut host.tree, label, leaf, reset, now);
    keep(board, host, label, name, &value, Some(leaf), next, reply)
}

/// Removes the leaf at a place, at a moment in seconds: the chip's words are stored, and then the leaf's record is
/// removed.
///
/// The reply is the chip's. `Failed` comes where a write failed, as at `insert_leaf`.
pub fn remove_leaf<B: Board>(
    board: &mut B,
    host: &mut ChipHost,
    place: LeafPlace<'_>,
    now: u64,
) -> Result<Reply, Failed>
    requires short { length place.name.now ≤ 166 }
    requires plain { ¬ IsTemporary place.name.now }
    requires boot { 1 ≤ host.old.words.boot }
    requires moment { now < 2 ^ 40 }
    ensures makes { MakesCall place.entry.label place.entry.name.now None
        (step host.old.words (Remove place.entry.label (aux_of (value_in host.old.tree) place.entry.label)
        (value_in host.old.tree place.entry.label)) now)
        (host_of host.old) (B.disk board.old) (B.disk board.new) (host_of host.new) result }
    ensures cause { HasCause (B.faults board.old) (B.faults board.new) (IsErr result) }
{
    let LeafPlace { label, name } = place;
    let value = host.tree.at(label);
    let mut next = host.words;
    let reply = pin_ops::remove(&mut next, &mut host.tree, label, now);
    keep(board, host, label, name, &value, None, next, reply)
}
