//! A law of replay. The function has an empty body: its contract is the law.

ghost use Rattle.std.specs.Prelude.{◌≡◌, ℕ, List};
ghost use Rattle.pw_path.specs.Tree.{root};
ghost use Rattle.pw_log.specs.Pair.{Entries};
ghost use Rattle.pw_log.specs.Entries.{answer_to};
ghost use Rattle.pw_log.specs.declared.answer.LogAnswer.TheVariants.{InStep};
ghost use Rattle.log_replay.specs.Replaying.{replayed};

/// Where the newest root is that of the replayed values, the log answers a host that has them that it is
/// in step. A host that was in step is so still: nothing is replayed.
pub fn replay_ends_in_step()
    ensures ends { (log : Entries) (values : ℕ → List ℕ)
        → log.newest.root ≡ root (replayed log values)
        → answer_to log (root (replayed log values)) ≡ InStep }
    ensures stays { (log : Entries) (values : ℕ → List ℕ)
        → log.newest.root ≡ root values
        → replayed log values ≡ values }
{}
