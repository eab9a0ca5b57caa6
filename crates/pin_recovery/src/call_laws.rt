//! What a call of a host that is in step is answered, and what it changes. Each function has an empty body: its
//! contract is the law.

ghost use Rattle.std.specs.Prelude.{◌≡◌, ◌<◌, ◌^◌, ℕ, List};
ghost use Rattle.pw_path.specs.Tree.{no_hash};
ghost use Rattle.pw_log.specs.declared.entry.TheConstants.{REMOVE};
ghost use Rattle.pw_chip.specs.State.{ChipState};
ghost use Rattle.pw_chip.specs.Told.{told};
ghost use Rattle.pin_ops.specs.Following.{values_after};
ghost use Rattle.pin_ops.specs.Resyncing.{redone};
ghost use Rattle.pin_recovery.specs.Devices.{Devices, tree_of, AreInStep};
ghost use Rattle.pin_recovery.specs.Clean.{IsCleanBetween};
ghost use Rattle.pin_recovery.specs.LeafCalls.{LeafOp, IsLeafOp, IsAnswered, label_of, reply_to, stepped};

/// Each answer of the chip to a host that is in step is the one to the leaf at that label.
pub fn answers_are_to_the_own_leaf()
    ensures { (d : Devices) (op : LeafOp) (now : ℕ) → AreInStep d → IsLeafOp op → IsAnswered d op now }
{}

/// The tree that follows the reply is the tree of the leaves after the call, so its root is the chip's.
pub fn tree_follows_the_leaves()
    ensures { (d : Devices) (op : LeafOp) (now : ℕ)
        → AreInStep d
        → IsLeafOp op
        → now < 2 ^ 40
        → values_after (reply_to d op now) (label_of op) (tree_of d) ≡ tree_of (stepped d op now) }
{}

/// A call that changes no word changes no leaf, if of the inputs of the trees before it and after it no two
/// have one hash or one MAC, and none has a MAC of zero bytes. So its record needs no put.
pub fn unchanged_words_mean_unchanged_leaves()
    ensures { (d : Devices) (op : LeafOp) (now : ℕ)
        → AreInStep d
        → IsLeafOp op
        → now < 2 ^ 40
        → IsCleanBetween d.words.keys d.leaves (stepped d op now).leaves
        → (stepped d op now).words.log.newest.root ≡ d.words.log.newest.root
        → (stepped d op now).leaves ≡ d.leaves }
{}

/// The values that a host comes to by redoing the newest entry are those that the entry tells: for words of a
/// chip's run, whose removals note a MAC of zero bytes, those of the ledger.
pub fn redone_values_are_told()
    ensures { (w : ChipState) (values : ℕ → List ℕ) (label : ℕ)
        → (w.log.newest.operation ≡ REMOVE → w.log.newest.mac ≡ no_hash)
        → redone w values label ≡ told w.log.newest values label }
{}
