//! Finding what a host lacks, by the chip's log.

ghost use Rattle.std.specs.Prelude.{◌≡◌, Option, bytes_eq, option_copied};
ghost use Rattle.pw_path.specs.Tree.{root};
ghost use Rattle.pw_log.specs.Entry.{IsEntry};
ghost use Rattle.label_tree.specs.Values.{value_in};
ghost use Rattle.pin_ops.specs.Resyncing.{resynced, redo, missing, put_if_noted, replay_of, replayed, lost, changed_label, needed};
ghost use Rattle.pin_ops.specs.Following.{values_by, IsFound};

use crate::answer::Resync;
use label_tree::{NO_HASH, Tree};
use log_replay::{apply, entry_label, plan, root_after};
use pw_chip::{Call, Chip, Reply, Words};
use pw_leaf::{LEAF_BYTES, mac_in};
use pw_log::{INSERT, LogAnswer, LogEntry, REMOVE, RESET, RESET_TREE, TRY};
use pw_path::Label;

/// Asks the log with the tree's root, and brings the tree in step by at most the newest entry.
///
/// `leaf` is the record at the newest entry's label, and `None` where there is none. The answer says what
/// has to be done with that record. It is `Lost` where neither root of the log is the tree's, and where the
/// newest entry can't be replayed: an insert at a used label, a try or a reset whose record is absent or
/// that the chip doesn't replay, a reset of a tree with two or more used labels, and any entry after which
/// the root wouldn't be the newest. The tree is then as it was. The words stay.
#[tactic(auto, unfolding(crate::specs::Resyncing::resynced))]
pub fn resync(words: &mut Words, tree: &mut Tree, leaf: Option<&[u8; LEAF_BYTES]>) -> Resync
    ensures value { result ≡ resynced words.old (value_in tree.old) (option_copied leaf.entry) }
    ensures tree { value_in tree.new ≡ values_by result words.old.log.newest.mac (value_in tree.old) }
    ensures in_step { IsFound result → words.old.log.newest.root ≡ root (value_in tree.new) }
    ensures words { words.new ≡ words.old }
{
    let host = tree.root();
    match words.log().since(&host) {
        LogAnswer::InStep => Resync::InStep,
        LogAnswer::One(_) => {
            let entry = *words.log().newest();
            redo(words, tree, &entry, leaf)
        }
        LogAnswer::RootUnknown { .. } => lost(words, tree),
    }
}

/// The label whose leaf record `resync` needs, and `None` where it needs none.
pub fn resync_label(words: &Words, tree: &Tree) -> Option<Label>
    ensures { result ≡ needed words.now (value_in tree.now) }
{
    match words.log().since(&tree.root()) {
        LogAnswer::One(_) => changed_label(words.log().newest()),
        _ => None,
    }
}

// The label whose leaf a try or a reset changed.
fn changed_label(entry: &LogEntry) -> Option<Label>
    requires { IsEntry entry.now }
    ensures { result ≡ changed_label entry.now }
{
    let changes = entry.operation == TRY || entry.operation == RESET;
    changes.then_some(entry_label(entry))
}

// Redoes the newest entry on a host that lacks it.
#[tactic(auto, unfolding(crate::specs::Resyncing::missing))]
fn redo(
    words: &mut Words,
    tree: &mut Tree,
    entry: &LogEntry,
    leaf: Option<&[u8; LEAF_BYTES]>,
) -> Resync
    requires newest { entry.now ≡ words.old.log.newest }
    requires ranges { IsEntry entry.now }
    ensures value { result ≡ redo words.old (value_in tree.old) (option_copied leaf.entry) }
    ensures tree { value_in tree.new ≡ values_by result entry.now.mac (value_in tree.old) }
    ensures in_step { IsFound result → root (value_in tree.new) ≡ entry.now.root }
    ensures words { words.new ≡ words.old }
{
    let replay = plan(&LogAnswer::One(*entry));
    if root_after(tree, &replay) != entry.root {
        return lost(words, tree);
    }
    let Some(found) = missing(words, tree, entry, leaf) else {
        return lost(words, tree);
    };
    apply(tree, &replay);
    found
}

// What is missing where the newest entry is, if it can be redone.
#[tactic(auto, unfolding(crate::specs::Resyncing::missing))]
fn missing(
    words: &mut Words,
    tree: &Tree,
    entry: &LogEntry,
    leaf: Option<&[u8; LEAF_BYTES]>,
) -> Option<Resync>
    requires newest { entry.now ≡ words.old.log.newest }
    requires ranges { IsEntry entry.now }
    ensures value { result ≡ missing words.old (value_in tree.now) (option_copied leaf.entry) }
    ensures words { words.new ≡ words.old }
{
    let label = entry_label(entry);
    match entry.operation {
        INSERT => (tree.at(label) == NO_HASH).then_some(Resync::Inserted(label)),
        REMOVE => Some(Resync::Removed(label)),
        RESET_TREE => (tree.used() <= 1).then_some(Resync::Emptied),
        TRY | RESET => put_if_noted(entry, replay(words, tree, label, leaf)),
        _ => None,
    }
}

// A record with the entry's MAC is put.
fn put_if_noted(entry: &LogEntry, made: Option<[u8; LEAF_BYTES]>) -> Option<Resync>
    requires { IsEntry entry.now }
    ensures { result ≡ put_if_noted entry.now made }
{
    let record = made?;
    let noted = mac_in(&record) == entry.mac;
    noted.then_some(Resync::Put(entry_label(entry), record))
}

// The record that the chip's Replay gives for the one at the entry's label.
fn replay(
    words: &mut Words,
    tree: &Tree,
    label: Label,
    leaf: Option<&[u8; LEAF_BYTES]>,
) -> Option<[u8; LEAF_BYTES]>
    requires { label ≡ words.old.log.newest.label }
    ensures value { result ≡ replay_of words.old (value_in tree.now) (option_copied leaf.entry) }
    ensures words { words.new ≡ words.old }
{
    let Some(leaf) = leaf else {
        return None;
    };
    let call = Call::Replay {
        label: label.number(),
        aux: tree.aux(label),
        leaf,
    };
    record_in(Chip::step(words, &call, 0))
}

// The record of a reply to a Replay.
fn record_in(reply: Reply) -> Option<[u8; LEAF_BYTES]>
    ensures { result ≡ replayed reply }
{
    match reply {
        Reply::Replayed(record) => Some(record),
        _ => None,
    }
}

fn lost(words: &Words, tree: &Tree) -> Resync
    ensures { result ≡ lost words.now (value_in tree.now) }
{
    Resync::Lost {
        host: tree.root(),
        chip: words.log().newest().root,
    }
}
