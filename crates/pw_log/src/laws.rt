//! A law of the log. The function has an empty body: its contract is the law.

ghost use Rattle.std.specs.Prelude.{◌≡◌, ◌≢◌};
ghost use Rattle.pw_log.specs.Pair.{Entries};
ghost use Rattle.pw_log.specs.Entries.{pushed, answer_to};
ghost use Rattle.pw_log.specs.declared.entry.LogEntry.{LogEntry};
ghost use Rattle.pw_log.specs.declared.answer.LogAnswer.TheVariants.{InStep, One};

/// A host that was in step is told the entry that is pushed then, and is in step where the root stayed.
pub fn pushed_entry_is_told()
    ensures told { (log : Entries) (entry : LogEntry)
        → entry.root ≢ log.newest.root
        → answer_to (pushed log entry) log.newest.root ≡ One entry }
    ensures stayed { (log : Entries) (entry : LogEntry)
        → entry.root ≡ log.newest.root
        → answer_to (pushed log entry) log.newest.root ≡ InStep }
{}
