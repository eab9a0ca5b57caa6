//! The laws of the chip, over its definition alone. Each function has an empty body: its contract is the law.

ghost use Rattle.std.specs.Prelude.{◌≡◌, ◌<◌, ◌^◌, ◌⊎◌, ℕ, List, Some, []};
ghost use Rattle.pw_path.specs.Tree.{root, AllHashes};
ghost use Rattle.pw_path.specs.Path.{OnTree, HasNoCollision};
ghost use Rattle.pw_leaf.specs.declared.keys.ChipKeys.{ChipKeys};
ghost use Rattle.pw_leaf.specs.Contents.{Contents};
ghost use Rattle.pw_chip.specs.State.{new_state};
ghost use Rattle.pw_chip.specs.Ledger.{Event, new_ledger};
ghost use Rattle.pw_chip.specs.Law.{Hashed, Signed, HasNoMacCollision, IsClean, AreEvents, Law};
ghost use Rattle.pw_chip.specs.History.{history_after, ledger_in_the_end, wrongs_since, leaf_since};
ghost use Rattle.pw_chip.specs.Told.{told, IsTold, words_of_run, values_of_run};

/// Whatever bytes the host presents, each answer of the chip is that of the ledger, if of the recorded
/// inputs no two have one hash or one MAC, and none has a MAC of zero bytes.
///
/// For every list of calls and boots from a new chip:
///
/// - each released, wrong, cleared, delayed and locked answer, and each refusal of a reset secret, was given
///   to a record that is the ledger's leaf at that label, byte for byte, with the label's true path, and is
///   the answer to that leaf;
/// - each replayed answer is the ledger's leaf, and was given to a record that is, byte for byte, the leaf
///   from which the newest entry made it, with the path that is the true one in the tree of the older root.
///   It is the true one in the ledger's tree too, since the entry changed no other label;
/// - each insert was at an unused label and each remove was of the MAC of the ledger's leaf, with the label's
///   true path, and the inserted record is that of the new leaf;
/// - the root is that of the ledger's leaves.
pub fn chip_law()
    ensures { (keys : ChipKeys) (events : List Event)
        → AreEvents events
        → IsClean (new_state keys) new_ledger events
        → Law (new_state keys) new_ledger events }
{}

/// A leaf's count in the ledger is the number of wrong tries at its label since its insert, its last
/// release or its last clearing.
pub fn count_law()
    ensures { (keys : ChipKeys) (events : List Event) (label : ℕ) (x : Contents)
        → (ledger_in_the_end (new_state keys) new_ledger events).leaves label ≡ Some x
        → x.wrong ≡ wrongs_since label (history_after (new_state keys) new_ledger events []) }
{}

/// A label's leaf in the ledger is what its last insert gave it, with the count of wrong tries since its
/// count began and the stamp of the last of them. There is none where none was inserted, and where it was
/// removed or the tree was emptied since.
pub fn leaf_law()
    ensures { (keys : ChipKeys) (events : List Event) (label : ℕ)
        → (ledger_in_the_end (new_state keys) new_ledger events).leaves label
        ≡ leaf_since label (history_after (new_state keys) new_ledger events []) }
{}

/// The newest log entry of a run made the ledger's leaf values of those whose tree has the older root: it
/// sets its label's value, or empties the tree. So a host whose tree has the older root, and whose hashes
/// don't collide with the recorded ones, comes to the ledger's values by it.
pub fn newest_entry_tells()
    ensures ledger { (keys : ChipKeys) (events : List Event)
        → AreEvents events
        → IsClean (new_state keys) new_ledger events
        → IsTold (words_of_run keys events).log (values_of_run keys events) }
    ensures host { (keys : ChipKeys) (events : List Event) (host : ℕ → List ℕ) (label : ℕ)
        → AreEvents events
        → AllHashes host
        → HasNoCollision (λ input. Hashed (new_state keys) new_ledger events input ⊎ OnTree host input)
        → HasNoMacCollision keys.mac (Signed (new_state keys) new_ledger events)
        → root host ≡ (words_of_run keys events).log.older.root
        → label < 16384
        → told (words_of_run keys events).log.newest host label ≡ values_of_run keys events label }
{}
