//! Laws of leaf records. Each function has an empty body: its contract is the law.

ghost use Rattle.std.specs.Prelude.{ℕ, List, ◌≡◌, ◌+◌, ◌<◌, ◌^◌, All, Ok};
ghost use Rattle.pw_types.specs.Schedule.{limit_of};
ghost use Rattle.pw_types.specs.declared.stamp.Stamp.{Stamp};
ghost use Rattle.pw_leaf.specs.declared.keys.ChipKeys.{ChipKeys};
ghost use Rattle.pw_leaf.specs.Contents.{Contents, IsContents, bumped, cleared, no_stamp};
ghost use Rattle.pw_leaf.specs.LeafBytes.{leaf_bytes};
ghost use Rattle.pw_leaf.specs.Reading.{check_at};
ghost use Rattle.pw_leaf.specs.Changes.{recounted};

/// What a leaf record was written with is read from it.
pub fn written_record_is_read()
    ensures { (keys : ChipKeys) (x : Contents)
        → IsContents x
        → check_at keys (leaf_bytes keys x) ≡ Ok x }
{}

/// Bytes that are accepted are, each of them, the record of what they hold.
pub fn accepted_record_is_written()
    ensures { (keys : ChipKeys) (bytes : List ℕ) (x : Contents)
        → All (λ byte. byte < 256) bytes
        → check_at keys bytes ≡ Ok x
        → IsContents x × (bytes ≡ leaf_bytes keys x) }
{}

/// A changed count changes bytes 132 to 151 of an accepted record and its MAC, and no other byte.
pub fn changed_count_changes_nothing_else()
    ensures bumped { (keys : ChipKeys) (bytes : List ℕ) (x : Contents) (now : Stamp)
        → All (λ byte. byte < 256) bytes
        → check_at keys bytes ≡ Ok x
        → leaf_bytes keys (bumped now x) ≡ recounted keys bytes (x.wrong + 1) now }
    ensures cleared { (keys : ChipKeys) (bytes : List ℕ) (x : Contents)
        → All (λ byte. byte < 256) bytes
        → check_at keys bytes ≡ Ok x
        → leaf_bytes keys (cleared x) ≡ recounted keys bytes 0 no_stamp }
{}

/// A record whose count was changed is accepted, and holds the changed contents.
pub fn changed_record_is_read()
    ensures bumped { (keys : ChipKeys) (x : Contents) (now : Stamp)
        → IsContents x
        → x.wrong < limit_of x.schedule
        → now.boot < 2 ^ 64
        → now.at < 2 ^ 40
        → check_at keys (leaf_bytes keys (bumped now x)) ≡ Ok (bumped now x) }
    ensures cleared { (keys : ChipKeys) (x : Contents)
        → IsContents x
        → check_at keys (leaf_bytes keys (cleared x)) ≡ Ok (cleared x) }
{}
