//! Chip calls with the tree's own siblings, which the tree then follows.

ghost use Rattle.std.specs.Prelude.{◌≡◌, ◌<◌, ◌^◌};
ghost use Rattle.pw_path.specs.Tree.{root, aux_of};
ghost use Rattle.pw_chip.specs.Calls.{Insert, Remove, Try, Reset};
ghost use Rattle.pw_chip.specs.Step.{step};
ghost use Rattle.label_tree.specs.Values.{value_in};
ghost use Rattle.pin_ops.specs.Following.{values_after};

use label_tree::Tree;
use pw_chip::{Call, Chip, Reply, Words};
use pw_leaf::{LEAF_BYTES, NewLeafSecrets, mac_in};
use pw_path::{Hash, Label};
use pw_types::Schedule;

/// Makes a leaf at a label, at a moment in seconds. Its record is in the reply.
pub fn insert(
    words: &mut Words,
    tree: &mut Tree,
    label: Label,
    new: &NewLeafSecrets,
    schedule: &Schedule,
    iv: [u8; 16],
    now: u64,
) -> Reply
    requires { now < 2 ^ 40 }
    ensures call { step words.old (Insert label (aux_of (value_in tree.old) label) (value_in tree.old label)
        new.now.les new.now.hes new.now.reset schedule.now iv) now ≡ (result, words.new) }
    ensures tree { value_in tree.new ≡ values_after result label (value_in tree.old) }
{
    let call = Call::Insert {
        label: label.number(),
        aux: tree.aux(label),
        mac: tree.at(label),
        les: new.les,
        hes: new.hes,
        reset: new.reset,
        schedule: *schedule,
        iv,
    };
    let reply = Chip::step(words, &call, now);
    follow(tree, label, &reply);
    reply
}

/// Shows a low-entropy secret to a label's leaf, at a moment in seconds. The leaf's new record is in the
/// reply where the try counted.
pub fn try_pin(
    words: &mut Words,
    tree: &mut Tree,
    label: Label,
    leaf: &[u8; LEAF_BYTES],
    les: &Hash,
    now: u64,
) -> Reply
    requires { now < 2 ^ 40 }
    ensures call { step words.old (Try label (aux_of (value_in tree.old) label) leaf.now les.now) now
        ≡ (result, words.new) }
    ensures tree { value_in tree.new ≡ values_after result label (value_in tree.old) }
{
    let call = Call::Try {
        label: label.number(),
        aux: tree.aux(label),
        leaf,
        les: *les,
    };
    let reply = Chip::step(words, &call, now);
    follow(tree, label, &reply);
    reply
}

/// Shows a reset secret to a label's leaf, at a moment in seconds. The leaf's new record is in the reply
/// where the secret was the leaf's.
pub fn reset(
    words: &mut Words,
    tree: &mut Tree,
    label: Label,
    leaf: &[u8; LEAF_BYTES],
    reset: &Hash,
    now: u64,
) -> Reply
    requires { now < 2 ^ 40 }
    ensures call { step words.old (Reset label (aux_of (value_in tree.old) label) leaf.now reset.now) now
        ≡ (result, words.new) }
    ensures tree { value_in tree.new ≡ values_after result label (value_in tree.old) }
{
    let call = Call::Reset {
        label: label.number(),
        aux: tree.aux(label),
        leaf,
        reset: *reset,
    };
    let reply = Chip::step(words, &call, now);
    follow(tree, label, &reply);
    reply
}

/// Removes a label's leaf, at a moment in seconds.
pub fn remove(words: &mut Words, tree: &mut Tree, label: Label, now: u64) -> Reply
    requires { now < 2 ^ 40 }
    ensures call { step words.old (Remove label (aux_of (value_in tree.old) label) (value_in tree.old label)) now
        ≡ (result, words.new) }
    ensures tree { value_in tree.new ≡ values_after result label (value_in tree.old) }
{
    let call = Call::Remove {
        label: label.number(),
        aux: tree.aux(label),
        mac: tree.at(label),
    };
    let reply = Chip::step(words, &call, now);
    follow(tree, label, &reply);
    reply
}

// Gives the label the MAC of the reply's record, and takes it away where the leaf was removed.
fn follow(tree: &mut Tree, label: Label, reply: &Reply)
    ensures { value_in tree.new ≡ values_after reply.now label (value_in tree.old) }
{
    match reply {
        Reply::Done => tree.take(label),
        Reply::Inserted(leaf) => tree.set(label, &mac_in(leaf)),
        Reply::Released { leaf, .. } => tree.set(label, &mac_in(leaf)),
        Reply::Cleared(leaf) => tree.set(label, &mac_in(leaf)),
        Reply::Wrong(leaf) => tree.set(label, &mac_in(leaf)),
        _ => {}
    }
}
