//! A PIN's leaf is looked at before a step on it.

ghost use Rattle.std.specs.Prelude.{◌≡◌, ◌≤◌, ◌+◌, IsTrue, IfErr, IsErrOf, IsOk, None};
ghost use Rattle.record_names.specs.Names.{is_account_name};
ghost use Rattle.home_edits.specs.Edits.{told_fault};
ghost use Rattle.turn_secrets.specs.Listing.{Looks};
ghost use Rattle.turn_edits.specs.Endings.{MadeFailed};
ghost use Rattle.turn_pins.specs.Looking.{view_told, TellsView, IsLookFault, IsRefusal};
ghost use Rattle.turn_pins.specs.Setting.{IsRenewFault};
ghost use Rattle.account_machine.specs.declared.answer.Answer.TheVariants as answers;
ghost use Rattle.std.specs.Prelude.{◌⊎◌};

use account_machine::Answer;
use ct_bytes::{NoMemory, Text};
use pw_path::Label;
use record_names::RecordName;
use share_api::{LeafView, Share, ShareFault};
use std::alloc::Global;
use stored_home::StoreFault;

/// A share's fault, as a store's.
pub(crate) fn fault_told(fault: ShareFault) -> StoreFault
    ensures { result ≡ told_fault fault }
{
    match fault {
        ShareFault::Failed => StoreFault::Failed,
        ShareFault::TreeLost { host, chip } => StoreFault::TreeLost { host, chip },
        ShareFault::Damaged(name) => StoreFault::Damaged(name),
        ShareFault::NoMemory => StoreFault::NoMemory,
    }
}

// What a look at a leaf shows. A leaf that isn't there is damaged.
fn view_told(
    account: &str,
    tree: Label,
    answer: Result<Option<LeafView>, ShareFault>,
) -> Result<LeafView, StoreFault>
    requires { IsTrue (is_account_name account.now) }
    ensures { result ≡ view_told account.now tree answer }
{
    match answer {
        Ok(Some(view)) => Ok(view),
        Ok(None) => Err(StoreFault::Damaged(RecordName::leaf(account, tree))),
        Err(fault) => Err(fault_told(fault)),
    }
}

/// What a leaf shows. The tree isn't lost.
pub(crate) fn look<S: Share>(
    share: &mut S,
    account: &str,
    tree: Label,
) -> Result<LeafView, StoreFault>
    requires plain { IsTrue (is_account_name account.now) }
    requires spare { 1 ≤ (S.seen share.old).spare }
    requires whole { (S.seen share.old).lost ≡ None }
    ensures looks { Looks (S.seen share.old) (S.seen share.new) (IsErrOf result StoreFault.Failed) 1
        (TellsView account.now tree result) }
    ensures only { IfErr result IsLookFault }
    ensures named { IfErr result (IsRenewFault account.now tree) }
    ensures quiet { IsOk result → MadeFailed (S.seen share.old) (S.seen share.new) → ⊥ }
    ensures spare { (S.seen share.old).spare ≤ (S.seen share.new).spare + 1 }
    ensures whole { (S.seen share.new).lost ≡ None }
    ensures goes { S.goes share.old share.new }
{
    view_told(account, tree, share.leaf(tree))
}

/// The answer that a record is damaged, or that there was no memory for its name.
pub(crate) fn damaged(alloc: Global, name: &RecordName) -> Answer
    ensures { (result ≡ answers.Damaged name.now) ⊎ (result ≡ answers.NoMemory) }
{
    match Text::from_str(alloc, name.as_str()) {
        Ok(name) => Answer::Damaged(name),
        Err(NoMemory) => Answer::NoMemory,
    }
}

/// The answer to a turn that was refused before anything changed.
pub(crate) fn refused(alloc: Global, fault: StoreFault) -> Answer
    ensures { IsRefusal fault result }
{
    match fault {
        StoreFault::Failed | StoreFault::NoMemory => Answer::NoMemory,
        StoreFault::Damaged(name) => damaged(alloc, &name),
        StoreFault::TreeLost { host, chip } => Answer::TreeLost { host, chip },
    }
}
