//! What a step on records answers.

ghost use Rattle.std.specs.Prelude.{◌≡◌, IfOk, IsTrue, None};
ghost use Rattle.home_names.specs.Names.{is_account_name};
ghost use Rattle.platform_core.specs.Asked.{IsReplyTo};
ghost use Rattle.platform_lock.specs.Answers.{IsAnswerTo};
ghost use Rattle.board_device.specs.Idle.{IsOrForgets};

use ct_bytes::{Blob, NoMemory};
use platform_lock::{Answer, Outcome};
use record_names::RecordName;
use share_api::{Reply, ShareFault, Step};
use std::alloc::Global;

// The same bytes.
fn copied(found: &Option<Blob>) -> Result<Option<Blob>, NoMemory>
    ensures { IfOk result (λ copy. copy ≡ found.now) }
{
    match found {
        Some(bytes) => Ok(Some(bytes.copy()?)),
        None => Ok(None),
    }
}

// The same names.
fn copied_names(alloc: Global, names: &[RecordName]) -> Result<Vec<RecordName>, NoMemory>
    ensures { IfOk result (λ copy. copy.items ≡ names.now) }
{
    let mut copy = Vec::new(alloc);
    for name in names {
        copy.push(*name)?;
    }
    Ok(copy)
}

// A step that read, and for whose answer there is no memory.
fn forgotten(step: Step) -> Outcome
    ensures step { result.step ≡ record step { reply = Reply.NoMemory } }
    ensures answer { result.answer ≡ Err ShareFault.NoMemory }
{
    let mut step = step;
    step.reply = Reply::NoMemory;
    Outcome {
        step,
        answer: Err(ShareFault::NoMemory),
    }
}

/// A step on records with its answer, which has a copy of what the reply has.
///
/// Without memory for the copy the step has read nothing: its reply is `NoMemory` too.
pub(crate) fn answered(alloc: Global, step: Step) -> Outcome
    requires reply { IsReplyTo step.op step.reply }
    ensures answer { IsAnswerTo None step.op result.answer result.step.reply }
    ensures step { IsOrForgets step result.step }
{
    match &step.reply {
        Reply::Found(found) => match copied(found) {
            Ok(found) => Outcome {
                step,
                answer: Ok(Answer::Found(found)),
            },
            Err(_) => forgotten(step),
        },
        Reply::Listed(listing) => match copied_names(alloc, listing.names()) {
            Ok(names) => Outcome {
                step,
                answer: Ok(Answer::Names(names)),
            },
            Err(_) => forgotten(step),
        },
        Reply::Done => Outcome {
            step,
            answer: Ok(Answer::Done),
        },
        Reply::NoMemory => Outcome {
            step,
            answer: Err(ShareFault::NoMemory),
        },
        Reply::Failed => Outcome {
            step,
            answer: Err(ShareFault::Failed),
        },
        _ => unreachable!(),
    }
}
