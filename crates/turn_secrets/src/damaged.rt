//! The answer that a record is damaged.

ghost use Rattle.std.specs.Prelude.{◌≡◌, ◌⊎◌};
ghost use Rattle.account_machine.specs.declared.answer.Answer.TheVariants as answers;

use account_machine::Answer;
use ct_bytes::{NoMemory, Text};
use record_names::RecordName;
use std::alloc::Global;

/// The answer that a record is damaged, or that there was no memory for its name.
pub(crate) fn damaged(alloc: Global, name: &RecordName) -> Answer
    ensures { (result ≡ answers.Damaged name.now) ⊎ (result ≡ answers.NoMemory) }
{
    match Text::from_str(alloc, name.as_str()) {
        Ok(name) => Answer::Damaged(name),
        Err(NoMemory) => Answer::NoMemory,
    }
}
