//! What a host has to do with its tree, and doing it.

ghost use Rattle.std.specs.Prelude.{◌≡◌};
ghost use Rattle.pw_path.specs.Tree.{root};
ghost use Rattle.label_tree.specs.Values.{value_in};
ghost use Rattle.log_replay.specs.Replaying.{applied, IsDoable};

use crate::planning::entry_label;
use label_tree::{NO_HASH, Tree};
use pw_log::LogEntry;
use pw_path::{Hash, LEVELS, Label, empty_roots};

/// What brings the host's tree in step with the chip.
#[derive(Clone, Copy, Debug, PartialEq, Eq)]
pub enum Replay {
    /// The tree stays as it is.
    Nothing,
    /// The entry's label gets the entry's MAC.
    Put(LogEntry),
    /// The label isn't used any more.
    Drop(Label),
    /// No label is used any more.
    Empty,
    /// Neither root of the log is the tree's, so nothing can be replayed.
    Lost { host: Hash, chip: Hash },
}

/// The root that the tree has once the plan is done. The tree stays as it is.
pub fn root_after(tree: &Tree, replay: &Replay) -> Hash
    requires { IsDoable replay.now }
    ensures { result ≡ root (applied replay.now (value_in tree.now)) }
{
    match replay {
        Replay::Nothing => tree.root(),
        Replay::Put(entry) => tree.root_with(entry_label(entry), &entry.mac),
        Replay::Drop(label) => tree.root_with(*label, &NO_HASH),
        Replay::Empty => empty_roots()[LEVELS],
        Replay::Lost { .. } => unreachable!(),
    }
}

/// Does with the tree what the plan says. A plan that is lost can't be done.
pub fn apply(tree: &mut Tree, replay: &Replay)
    requires { IsDoable replay.now }
    ensures { value_in tree.new ≡ applied replay.now (value_in tree.old) }
{
    match replay {
        Replay::Nothing => {}
        Replay::Put(entry) => tree.set(entry_label(entry), &entry.mac),
        Replay::Drop(label) => tree.take(*label),
        Replay::Empty => tree.clear(),
        Replay::Lost { .. } => unreachable!(),
    }
}
