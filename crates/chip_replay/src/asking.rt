//! What the chip's log answers a host.

ghost use Rattle.std.specs.Prelude.{◌≡◌};
ghost use Rattle.pw_path.specs.Tree.{root};
ghost use Rattle.leaf_table.specs.Rows.{row_in};
ghost use Rattle.label_tree.specs.Values.{value_in};
ghost use Rattle.pin_ops.specs.Following.{values_by, IsFound};
ghost use Rattle.chip_replay.specs.Records.{answer_of, IsDueLabel};

use label_tree::Tree;
use leaf_table::LeafTable;
use log_replay::entry_label;
use pin_ops::Resync;
use pw_chip::Words;
use pw_log::RESET_TREE;
use pw_path::Label;

/// The label whose record a replay of the newest entry would change: the entry's own, and where it emptied the tree
/// the least that has a record, if one has.
pub fn due_label(words: &Words, leaves: &LeafTable) -> Option<Label>
    ensures { IsDueLabel words.now (row_in leaves.now) result }
{
    let entry = words.log().newest();
    if entry.operation == RESET_TREE {
        leaves.least()
    } else {
        Some(entry_label(entry))
    }
}

// Asks the log with the tree's root, and lets the tree follow the answer. The words stay.
pub(crate) fn ask(words: &mut Words, tree: &mut Tree, leaves: &LeafTable) -> Resync
    ensures value { result ≡ answer_of words.old (value_in tree.old) (row_in leaves.now) }
    ensures tree { value_in tree.new ≡ values_by result words.old.log.newest.mac (value_in tree.old) }
    ensures in_step { IsFound result → words.old.log.newest.root ≡ root (value_in tree.new) }
    ensures words { words.new ≡ words.old }
{
    let label = entry_label(words.log().newest());
    pin_ops::resync(words, tree, leaves.get(label))
}
