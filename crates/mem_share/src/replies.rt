//! The replies that answers stand for.

ghost use Rattle.std.specs.Prelude.{◌≡◌};
ghost use Rattle.share_api.specs.Replies.{fault_reply, done_reply, label_reply, try_reply, fits_reply, view_reply};

use pw_path::Label;
use share_api::{LeafView, Reply, ShareFault, TryAnswer};

pub fn fault_reply(fault: &ShareFault) -> Reply
    ensures value { result ≡ fault_reply fault.now }
{
    match fault {
        ShareFault::Failed => Reply::Failed,
        ShareFault::TreeLost { .. } => Reply::TreeLost,
        ShareFault::Damaged(_) => Reply::Damaged,
        ShareFault::NoMemory => Reply::NoMemory,
    }
}

pub fn done_reply(answer: &Result<(), ShareFault>) -> Reply
    ensures value { result ≡ done_reply answer.now }
{
    match answer {
        Ok(()) => Reply::Done,
        Err(fault) => fault_reply(fault),
    }
}

pub fn label_reply(answer: &Result<Label, ShareFault>) -> Reply
    ensures value { result ≡ label_reply answer.now }
{
    match answer {
        Ok(label) => Reply::Labelled(*label),
        Err(fault) => fault_reply(fault),
    }
}

pub fn try_reply(answer: &Result<TryAnswer, ShareFault>) -> Reply
    ensures value { result ≡ try_reply answer.now }
{
    match answer {
        Ok(answer) => Reply::Tried(*answer),
        Err(fault) => fault_reply(fault),
    }
}

pub fn fits_reply(answer: &Result<bool, ShareFault>) -> Reply
    ensures value { result ≡ fits_reply answer.now }
{
    match answer {
        Ok(fits) => Reply::Fits(*fits),
        Err(fault) => fault_reply(fault),
    }
}

pub fn view_reply(answer: &Result<Option<LeafView>, ShareFault>) -> Reply
    ensures value { result ≡ view_reply answer.now }
{
    match answer {
        Ok(view) => Reply::Viewed(*view),
        Err(fault) => fault_reply(fault),
    }
}
