//! What rows read of the loaded stash.

ghost use Rattle.std.specs.Prelude.{◌≡◌, ◌⊎◌, ◌≤◌, ◌<◌, ◌^◌, IsTrue, IfSome};
ghost use Rattle.account_machine.specs.declared.answer.Answer.TheVariants as answers;
ghost use Rattle.record_names.specs.Names.{is_account_name, stash_name};
ghost use Rattle.stash_format.specs.declared.contents.Contents.{Contents as StashSeen};
ghost use Rattle.user_state.specs.Outlines.{next_in};
ghost use Rattle.turn_edits.specs.Stashes.{has_payload};

use account_machine::Answer;
use ct_bytes::{NoMemory, Text};
use record_names::RecordName;
use std::alloc::Global;
use stored_home::Stored;

/// Whether the stash has a payload, as that of a home with factors.
pub(crate) fn has_payload(stored: &Stored) -> bool
    ensures { result ≡ has_payload stored.now.stash }
{
    match &stored.stash {
        None => false,
        Some(stash) => stash.has_payload(),
    }
}

/// The edition that the next factor gets.
pub(crate) fn next_edition(stored: &Stored) -> u64
    ensures value { result ≡ next_in stored.now.stash }
    ensures from { IfSome stored.now.stash (λ (stash : StashSeen). 1 ≤ stash.next) }
    ensures within { IfSome stored.now.stash (λ (stash : StashSeen). stash.next < 2 ^ 64) }
{
    match &stored.stash {
        None => 1,
        Some(stash) => stash.next(),
    }
}

/// The answer that this record is damaged, or that there was no memory to say so.
pub(crate) fn damaged(alloc: Global, name: &RecordName) -> Answer
    ensures { (result ≡ answers.Damaged name.now) ⊎ (result ≡ answers.NoMemory) }
{
    match Text::from_str(alloc, name.as_str()) {
        Ok(name) => Answer::Damaged(name),
        Err(NoMemory) => Answer::NoMemory,
    }
}

/// The same of the stash's record.
pub(crate) fn damaged_stash(alloc: Global, account: &str) -> Answer
    requires plain { IsTrue (is_account_name account.now) }
    ensures { (result ≡ answers.Damaged (stash_name account.now)) ⊎ (result ≡ answers.NoMemory) }
{
    damaged(alloc, &RecordName::stash(account))
}
