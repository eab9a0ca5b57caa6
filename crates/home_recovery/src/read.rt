//! Single reads of a share.

ghost use Rattle.std.specs.Prelude.{◌≡◌, ◌≤◌, None, IsOk, IsErrOf, IfOk, IfErr};
ghost use Rattle.share_api.specs.Conditions.{IsOwnName};
ghost use Rattle.share_api.specs.Seen.{Makes, step_of};
ghost use Rattle.share_api.specs.declared.step.Op.{Op};
ghost use Rattle.share_api.specs.declared.step.Reply.{Reply};
ghost use Rattle.stored_home.specs.declared.fault.StoreFault.{StoreFault};
ghost use Rattle.home_recovery.specs.Parts.{AreNames, TellsBytes, TellsLeaf, TellsView, there_of, loss_of};
ghost use Rattle.home_recovery.specs.Reading.{Reads};
ghost use Rattle.home_recovery.specs.Told.{told, lost_tree, IsPlainFault, IsStepFault};

use ct_bytes::Blob;
use pw_path::Label;
use share_api::{LeafView, RecordName, Share, ShareFault};
use std::alloc::Global;
use stored_home::{LostTree, StoreFault};

/// An answer of a share, with its fault as a store's.
pub(crate) fn told<T: Drop>(answer: Result<T, ShareFault>) -> Result<T, StoreFault>
    requires { IfErr answer IsPlainFault }
    ensures { result ≡ told answer }
{
    match answer {
        Ok(value) => Ok(value),
        Err(ShareFault::Failed) => Err(StoreFault::Failed),
        Err(ShareFault::TreeLost { host, chip }) => Err(StoreFault::TreeLost { host, chip }),
        Err(ShareFault::Damaged(_)) => unreachable!(),
        Err(ShareFault::NoMemory) => Err(StoreFault::NoMemory),
    }
}

// Whether the leaf is there, by the answer of a look at it.
fn there_of(answer: Result<Option<LeafView>, ShareFault>) -> Result<bool, StoreFault>
    requires { IfErr answer IsPlainFault }
    ensures { result ≡ there_of answer }
{
    match told(answer) {
        Ok(view) => Ok(view.is_some()),
        Err(fault) => Err(fault),
    }
}

// What the answer of a look tells of the tree.
fn loss_of(answer: Result<Option<LeafView>, ShareFault>) -> Result<Option<LostTree>, StoreFault>
    requires { IfErr answer IsPlainFault }
    ensures { result ≡ loss_of answer }
{
    match answer {
        Ok(_) => Ok(None),
        Err(ShareFault::TreeLost { host, chip }) => Ok(Some(LostTree { host, chip })),
        Err(ShareFault::Failed) => Err(StoreFault::Failed),
        Err(ShareFault::Damaged(_)) => unreachable!(),
        Err(ShareFault::NoMemory) => Err(StoreFault::NoMemory),
    }
}

/// The names of the account's records, with a leaf name for each of its leaves.
pub(crate) fn list_names<S: Share>(
    alloc: Global,
    share: &mut S,
) -> Result<Vec<RecordName>, StoreFault>
    requires { 1 ≤ (S.seen share.old).spare }
    ensures made { (reply : Reply) × AreNames result reply
        × Makes (S.seen share.old) (S.seen share.new) (step_of (S.seen share.old) 0 Op.Names reply) }
    ensures only { IfErr result IsStepFault }
    ensures goes { S.goes share.old share.new }
{
    told(share.names(alloc))
}

/// The bytes of a record, and `None` where there is no such record. The faults are `Failed` and
/// `NoMemory`.
pub fn find_bytes<S: Share>(
    alloc: Global,
    share: &mut S,
    name: &RecordName,
) -> Result<Option<Blob>, StoreFault>
    requires spare { 1 ≤ (S.seen share.old).spare }
    requires own { IsOwnName (S.seen share.old).owner name.now }
    ensures read { Reads (S.seen share.old) (S.seen share.new) (IsOk result) (IsErrOf result StoreFault.Failed) 1
        (TellsBytes name.now result) }
    ensures only { IfErr result IsStepFault }
    ensures goes { S.goes share.old share.new }
{
    told(share.get(alloc, name))
}

/// What anybody may know of a leaf, and `None` where there is no such leaf. The tree isn't lost. The fault
/// is `Failed`.
pub fn find_view<S: Share>(share: &mut S, label: Label) -> Result<Option<LeafView>, StoreFault>
    requires spare { 1 ≤ (S.seen share.old).spare }
    requires whole { (S.seen share.old).lost ≡ None }
    ensures read { Reads (S.seen share.old) (S.seen share.new) (IsOk result) (IsErrOf result StoreFault.Failed) 1
        (TellsView label result) }
    ensures only { IfErr result IsStepFault }
    ensures goes { S.goes share.old share.new }
{
    told(share.leaf(label))
}

/// Whether a leaf is there. The tree isn't lost.
pub(crate) fn has_leaf<S: Share>(share: &mut S, label: Label) -> Result<bool, StoreFault>
    requires spare { 1 ≤ (S.seen share.old).spare }
    requires whole { (S.seen share.old).lost ≡ None }
    ensures read { Reads (S.seen share.old) (S.seen share.new) (IsOk result) (IsErrOf result StoreFault.Failed) 1
        (TellsLeaf label result) }
    ensures only { IfErr result IsStepFault }
    ensures goes { S.goes share.old share.new }
{
    there_of(share.leaf(label))
}

/// The roots of the tree of leaves where it is lost, by a look at the leaf of the least label.
pub(crate) fn find_loss<S: Share>(share: &mut S) -> Result<Option<LostTree>, StoreFault>
    requires { 1 ≤ (S.seen share.old).spare }
    ensures read { Reads (S.seen share.old) (S.seen share.new) (IsOk result) (IsErrOf result StoreFault.Failed) 1
        (λ _. Unit {0}) }
    ensures value { IfOk result (λ lost. lost ≡ lost_tree (S.seen share.old).lost) }
    ensures only { IfErr result IsStepFault }
    ensures goes { S.goes share.old share.new }
{
    let Some(least) = Label::new(0) else {
        unreachable!()
    };
    loss_of(share.leaf(least))
}
