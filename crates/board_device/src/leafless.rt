//! Steps on leaves of a platform that has none.

ghost use Rattle.std.specs.Prelude.{◌≡◌, IsTrue, true, None, Err};
ghost use Rattle.share_api.specs.declared.fault.ShareFault.{ShareFault};
ghost use Rattle.fault_count.specs.Causes.{HasCause};
ghost use Rattle.home_names.specs.Names.{is_account_name};
ghost use Rattle.platform_lock.specs.Answers.{IsAnswerTo};
ghost use Rattle.share_api.specs.declared.step.Reply.{Reply};
ghost use Rattle.board_device.specs.Idle.{is_on_leaf, idle_reply, no_record};

use fault_count::FaultCount;
use platform_lock::Answer;
use pw_path::Label;
use record_names::RecordName;
use share_api::{Op, Reply, ShareFault, Write};

/// Whether the step is one on a leaf.
pub(crate) fn is_on_leaf(op: &Op) -> bool
    ensures { result ≡ is_on_leaf op.now }
{
    match op {
        Op::Names => false,
        Op::Get(_) => false,
        Op::Do(Write::Put(_, _)) => false,
        Op::Do(Write::Remove(_)) => false,
        Op::Do(Write::RemoveLeaf(_)) => true,
        Op::InsertLeaf(_) => true,
        Op::TryLeaf(_, _) => true,
        Op::ResetLeaf(_, _) => true,
        Op::LookLeaf(_) => true,
    }
}

// The record of a leaf that isn't there is refused.
fn no_record(account: &str, label: Label) -> (Result<Answer, ShareFault>, Reply)
    requires { IsTrue (is_account_name account.now) }
    ensures { result ≡ no_record account.now label }
{
    let name = RecordName::leaf(account, label);
    (Err(ShareFault::Damaged(name)), Reply::Damaged)
}

/// What a step on a leaf answers, and its reply. A leaf can't be made, and that is counted.
pub(crate) fn leaf_answer(
    refused: &mut FaultCount,
    account: &str,
    op: &Op,
) -> (Result<Answer, ShareFault>, Reply)
    requires account { IsTrue (is_account_name account.now) }
    requires leaf { is_on_leaf op.now ≡ true }
    ensures answer { IsAnswerTo None op.now result.0 result.1 }
    ensures reply { result.1 ≡ idle_reply op.now }
    ensures cause { HasCause refused.old refused.new (result.1 ≡ Reply.Failed) }
{
    match op {
        Op::LookLeaf(_) => (Ok(Answer::Viewed(None)), Reply::Viewed(None)),
        Op::Do(Write::RemoveLeaf(_)) => (Ok(Answer::Done), Reply::Done),
        Op::TryLeaf(label, _) => no_record(account, *label),
        Op::ResetLeaf(label, _) => no_record(account, *label),
        Op::InsertLeaf(_) => refuse(refused),
        _ => unreachable!(),
    }
}

/// A step is refused, and that is counted.
pub(crate) fn refuse(refused: &mut FaultCount) -> (Result<Answer, ShareFault>, Reply)
    ensures answer { result.0 ≡ Err ShareFault.Failed }
    ensures reply { result.1 ≡ Reply.Failed }
    ensures cause { HasCause refused.old refused.new (result.1 ≡ Reply.Failed) }
{
    let _ = refused.raise();
    (Err(ShareFault::Failed), Reply::Failed)
}
