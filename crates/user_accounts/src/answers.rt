//! What the book keeps of an answer, and what is told of it.

ghost use Rattle.std.specs.Prelude.{◌≡◌, None};
ghost use Rattle.account_machine.specs.Answers.{refused_in};
ghost use Rattle.client_output.specs.Output.{HasList, IsToldOf, NamesPlainly};
ghost use Rattle.user_accounts.specs.Told.{IsDamage, IsKeptOf};

use account_machine::Answer;
use client_lang::is_plain_name;
use ct_bytes::{NoMemory, Text};
use name_map::Copied;

/// An answer as the book keeps it, and as it is told.
#[derive(Drop)]
pub(crate) struct Answered {
    pub(crate) kept: Answer,
    pub(crate) told: Answer,
}

// A copy of an answer with a list, or that there was no memory for it.
fn list_told(answer: &Answer) -> Answer
    requires list { HasList answer.now }
    ensures told { IsToldOf answer.now result }
    ensures plain { NamesPlainly result }
{
    match answer.copy() {
        Ok(told) => told,
        Err(NoMemory) => Answer::NoMemory,
    }
}

// A copy of an answer that is no refusal of the table and no damage, where there is memory for its list.
fn outcome_told(answer: &Answer) -> Answer
    requires unrefused { refused_in answer.now ≡ None }
    requires whole { IsDamage answer.now → ⊥ }
    ensures told { IsToldOf answer.now result }
    ensures plain { NamesPlainly result }
{
    match answer {
        Answer::OkFactors(_) => list_told(answer),
        Answer::OkFiles(_) => list_told(answer),
        Answer::OkBytes(_) => list_told(answer),
        Answer::Ok => Answer::Ok,
        Answer::OkEnds(ends) => Answer::OkEnds(*ends),
        Answer::OkPassword(ends) => Answer::OkPassword(*ends),
        Answer::OkSession { ends, token } => Answer::OkSession {
            ends: *ends,
            token: *token,
        },
        Answer::PinCleared => Answer::PinCleared,
        Answer::PinsClear => Answer::PinsClear,
        Answer::Seen(edition) => Answer::Seen(*edition),
        Answer::UnknownAccount => Answer::UnknownAccount,
        Answer::Wrong => Answer::Wrong,
        Answer::Locked => Answer::Locked,
        Answer::Delayed(seconds) => Answer::Delayed(*seconds),
        Answer::TreeLost { host, chip } => Answer::TreeLost {
            host: *host,
            chip: *chip,
        },
        Answer::StorageFault => Answer::StorageFault,
        Answer::NoMemory => Answer::NoMemory,
        _ => unreachable!(),
    }
}

// A copy of an answer that isn't damage, where there is memory for its list.
fn whole_told(answer: &Answer) -> Answer
    requires whole { IsDamage answer.now → ⊥ }
    ensures told { IsToldOf answer.now result }
    ensures plain { NamesPlainly result }
{
    match answer.refused() {
        Some(refused) => refused.answer(),
        None => outcome_told(answer),
    }
}

// Damage of the record of this name. Where the name isn't plain, or there is no memory for its copy, there was no
// memory for the turn.
fn damage_answered(name: Text) -> Answered
    ensures kept { IsKeptOf (Answer.Damaged name) result.kept }
    ensures told { IsToldOf result.kept result.told }
    ensures plain { NamesPlainly result.told }
{
    match name.copy() {
        Ok(copy) if is_plain_name(name.as_str()) => Answered {
            kept: Answer::Damaged(name),
            told: Answer::Damaged(copy),
        },
        _ => Answered {
            kept: Answer::NoMemory,
            told: Answer::NoMemory,
        },
    }
}

/// The answer as the book keeps it, and as it is told.
///
/// They are one, but that a list is told as want of memory where there is none for its copy. Damage is kept as want of
/// memory too, where there is none for the copy of the record's name, or that name isn't as plain as a record's.
pub(crate) fn kept_and_told(answer: Answer) -> Answered
    ensures kept { IsKeptOf answer result.kept }
    ensures told { IsToldOf result.kept result.told }
    ensures plain { NamesPlainly result.told }
{
    match answer {
        Answer::Damaged(name) => damage_answered(name),
        answer => {
            let told = whole_told(&answer);
            Answered { kept: answer, told }
        }
    }
}
