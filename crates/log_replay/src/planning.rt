//! What the log's answer asks of the host's tree.

ghost use Rattle.std.specs.Prelude.{◌≡◌, ◌<◌};
ghost use Rattle.pw_log.specs.Entry.{IsEntry};
ghost use Rattle.log_replay.specs.Replaying.{plan_of, IsAnswer, IsKnown, IsDoable};

use crate::replaying::Replay;
use pw_log::{BLANK, LogAnswer, LogEntry, REMOVE, RESET_TREE};
use pw_path::Label;

/// What has to be done where the log answers so. Only a root that the log doesn't know can't be helped.
pub fn plan(answer: &LogAnswer) -> Replay
    requires { IsAnswer answer.now }
    ensures value { result ≡ plan_of answer.now }
    ensures doable { IsKnown answer.now → IsDoable result }
{
    match answer {
        LogAnswer::InStep => Replay::Nothing,
        LogAnswer::One(entry) => plan_entry(entry),
        LogAnswer::RootUnknown { host, newest, .. } => Replay::Lost {
            host: *host,
            chip: *newest,
        },
    }
}

// What an entry that is missing asks.
fn plan_entry(entry: &LogEntry) -> Replay
    requires { IsEntry entry.now }
    ensures { result ≡ plan_of (LogAnswer.One entry.now) }
{
    match entry.operation {
        BLANK => Replay::Nothing,
        RESET_TREE => Replay::Empty,
        REMOVE => Replay::Drop(entry_label(entry)),
        _ => Replay::Put(*entry),
    }
}

/// The label of an entry.
pub fn entry_label(entry: &LogEntry) -> Label
    requires { IsEntry entry.now }
    ensures { result ≡ entry.now.label }
{
    let Some(label) = Label::new(entry.label) else {
        unreachable!();
    };
    label
}
