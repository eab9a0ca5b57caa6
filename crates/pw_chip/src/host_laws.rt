//! What a host that shows what stands is answered. Each function has an empty body: its contract is the law.
//! They ask nothing of hashes.

ghost use Rattle.std.specs.Prelude.{◌≡◌, ◌<◌, ℕ, Option, None, List, true, false};
ghost use Rattle.pw_path.specs.Tree.{root, no_hash};
ghost use Rattle.pw_leaf.specs.Contents.{Contents, new_contents};
ghost use Rattle.pw_leaf.specs.LeafBytes.{leaf_bytes, leaf_mac};
ghost use Rattle.pw_chip.specs.declared.reply.Reply.TheVariants.{Done, Inserted, Replayed};
ghost use Rattle.pw_chip.specs.State.{ChipState};
ghost use Rattle.pw_chip.specs.Calls.{Insert, Remove, Try, Reset, Replay};
ghost use Rattle.pw_chip.specs.Step.{tried, reset_at, is_replayed, redone_by, is_full, step};
ghost use Rattle.pw_chip.specs.Law.{values};
ghost use Rattle.pw_chip.specs.Standing.{Stands, true_path};

/// A leaf that stands in the tree is answered when its record is shown with its true path: a try and a
/// reset by what it holds, a replay by the record that the newest entry made, and a remove is done.
pub fn standing_leaf_is_answered()
    ensures tried { (w : ChipState) (leaves : ℕ → Option Contents) (label : ℕ) (x : Contents)
        (les : List ℕ) (now : ℕ)
        → Stands w.keys leaves w.log.newest.root label x
        → (step w (Try label (true_path w.keys leaves label) (leaf_bytes w.keys x) les) now).0
        ≡ tried w.keys x les (record { boot = w.boot; at = now }) w.start }
    ensures reset { (w : ChipState) (leaves : ℕ → Option Contents) (label : ℕ) (x : Contents)
        (reset : List ℕ) (now : ℕ)
        → Stands w.keys leaves w.log.newest.root label x
        → (step w (Reset label (true_path w.keys leaves label) (leaf_bytes w.keys x) reset) now).0
        ≡ reset_at w.keys x reset }
    ensures replayed { (w : ChipState) (leaves : ℕ → Option Contents) (label : ℕ) (x : Contents) (now : ℕ)
        → Stands w.keys leaves w.log.older.root label x
        → is_replayed w.log.newest label ≡ true
        → is_full w.log.newest.verdict x ≡ false
        → step w (Replay label (true_path w.keys leaves label) (leaf_bytes w.keys x)) now
        ≡ (Replayed (leaf_bytes w.keys (redone_by w.log.newest.verdict w.log.newest.stamp x)), w) }
    ensures removed { (w : ChipState) (leaves : ℕ → Option Contents) (label : ℕ) (x : Contents) (now : ℕ)
        → Stands w.keys leaves w.log.newest.root label x
        → ¬ (leaf_mac w.keys x ≡ no_hash)
        → (step w (Remove label (true_path w.keys leaves label) (leaf_mac w.keys x)) now).0 ≡ Done }
{}

/// An insert at an unused label with its true path is answered by the new leaf's record.
pub fn unused_label_is_given()
    ensures { (w : ChipState) (leaves : ℕ → Option Contents) (label : ℕ)
        (les hes reset : List ℕ) (schedule : List (ℕ × ℕ)) (iv : List ℕ) (now : ℕ)
        → label < 16384
        → leaves label ≡ None
        → w.log.newest.root ≡ root (values w.keys leaves)
        → (step w (Insert label (true_path w.keys leaves label) no_hash les hes reset schedule iv) now).0
        ≡ Inserted (leaf_bytes w.keys (new_contents label les hes reset schedule iv)) }
{}
