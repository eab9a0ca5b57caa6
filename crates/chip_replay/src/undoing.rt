//! Undoing an insert.

ghost use Rattle.std.specs.Prelude.{◌≡◌, ◌<◌, ◌^◌};
ghost use Rattle.pw_path.specs.Tree.{root, no_hash};
ghost use Rattle.pw_chip.specs.State.{IsSameEra};
ghost use Rattle.label_tree.specs.Values.{value_in, with_value};
ghost use Rattle.chip_replay.specs.Carrying.{removed_words};

use label_tree::Tree;
use pw_chip::{Call, Chip, Words};
use pw_path::Label;

// The chip removes what the tree has at a label, and the tree has nothing there any more.
pub(crate) fn undo(words: &mut Words, tree: &mut Tree, label: Label, now: u64)
    requires { now < 2 ^ 40 }
    ensures words { words.new ≡ removed_words words.old (value_in tree.old) label now }
    ensures tree { value_in tree.new ≡ with_value (value_in tree.old) label no_hash }
    // Where the tree's root was the chip's newest, it is so again.
    ensures in_step { words.old.log.newest.root ≡ root (value_in tree.old)
        → words.new.log.newest.root ≡ root (value_in tree.new) }
    ensures era { IsSameEra words.old words.new }
{
    let call = Call::Remove {
        label: label.number(),
        aux: tree.aux(label),
        mac: tree.at(label),
    };
    Chip::step(words, &call, now);
    tree.take(label);
}
