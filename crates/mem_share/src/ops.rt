//! What a share in memory does in a step, before the step is stored.

ghost use Rattle.std.specs.Prelude.{◌≡◌, ◌⊎◌, ◌<◌, ◌^◌, ℕ, None, IsErr, IsErrOf, IfErr, IfOk, IfSome};
ghost use Rattle.std.specs.FinMap.{get, keys};
ghost use Rattle.share_api.specs.Contents.{settled};
ghost use Rattle.share_api.specs.Steps.{Leads};
ghost use Rattle.share_api.specs.Replies.{fault_reply, done_reply, found_reply, label_reply, try_reply, fits_reply, view_reply, AreListed, IsNamesReply};
ghost use Rattle.share_api.specs.Conditions.{IsReadFault, IsLeafFault, IsTryFault, TellsLoss};
ghost use Rattle.share_api.specs.declared.step.Op.{Op};
ghost use Rattle.share_api.specs.declared.step.Reply.{Reply};
ghost use Rattle.share_api.specs.declared.step.Write.{Write};
ghost use Rattle.mem_share.specs.Era.{mem_era};
ghost use Rattle.mem_share.specs.Held.{contents_of, leaves_of, records_of};
ghost use Rattle.mem_share.specs.Counts.{Counts};

use crate::calls::CallList;
use crate::contents::Held;
use crate::leaf::MemLeaf;
use ct_bytes::{Blob, NoMemory};
use pw_path::{Hash, LABELS, Label};
use record_names::RecordName;
use share_api::{LeafView, Listing, NewLeaf, Reply, ShareFault, TryAnswer, Write};
use std::alloc::Global;

/// The account's name in the names of leaves.
const ACCOUNT: &str = "m";

/// A change.
pub fn write(held: &mut Held, calls: &mut CallList, write: &Write) -> Result<(), ShareFault>
    ensures leads { (moment : ℕ) → Leads mem_era moment (Op.Do write.now) (done_reply result)
        (settled (contents_of held.old)) (contents_of held.new) }
    ensures only { IsErr result → IsErrOf result ShareFault.Failed }
    ensures counted { Counts calls.old calls.new (IsErr result) }
{
    let listed = calls.next();
    held.settle();
    match listed {
        Some(is_done) => {
            if is_done {
                let _ = held.change(write);
            }
            Err(ShareFault::Failed)
        }
        None => match held.change(write) {
            Ok(()) => Ok(()),
            Err(_) => {
                calls.starve();
                Err(ShareFault::Failed)
            }
        },
    }
}

/// A removal of a leaf.
pub fn remove_leaf(
    held: &mut Held,
    calls: &mut CallList,
    lost: &Option<(Hash, Hash)>,
    label: Label,
) -> Result<(), ShareFault>
    ensures leads { (moment : ℕ) → Leads mem_era moment (Op.Do (Write.RemoveLeaf label)) (done_reply result)
        (settled (contents_of held.old)) (contents_of held.new) }
    ensures only { IfErr result IsLeafFault }
    ensures lost { TellsLoss lost.now result }
    ensures counted { Counts calls.old calls.new (IsErrOf result ShareFault.Failed) }
{
    let Some(roots) = lost else {
        return write(held, calls, &Write::RemoveLeaf(label));
    };
    let is_listed = calls.next().is_some();
    held.settle();
    Err(if is_listed {
        ShareFault::Failed
    } else {
        tree_lost(roots)
    })
}

// Two copies of a record: one for the answer, and one for the step.
fn copies(bytes: &Blob) -> Result<(Blob, Blob), NoMemory>
    ensures first { IfOk result (λ both. both.0 ≡ bytes.now) }
    ensures second { IfOk result (λ both. both.1 ≡ bytes.now) }
{
    Ok((bytes.copy()?, bytes.copy()?))
}

/// The bytes of a record.
pub fn get(
    held: &mut Held,
    calls: &mut CallList,
    name: &RecordName,
) -> (Result<Option<Blob>, ShareFault>, Reply)
    ensures reply { result.1 ≡ found_reply result.0 }
    ensures leads { Leads mem_era 0 (Op.Get name.now) (found_reply result.0)
        (settled (contents_of held.old)) (contents_of held.new) }
    ensures only { IfErr result.0 IsReadFault }
    ensures counted { Counts calls.old calls.new (IsErrOf result.0 ShareFault.Failed) }
{
    let listed = calls.next();
    held.settle();
    if listed.is_some() {
        return (Err(ShareFault::Failed), Reply::Failed);
    }
    match held.record(name) {
        None => (Ok(None), Reply::Found(None)),
        Some(bytes) => match copies(bytes) {
            Ok((found, kept)) => (Ok(Some(found)), Reply::Found(Some(kept))),
            Err(NoMemory) => (Err(ShareFault::NoMemory), Reply::NoMemory),
        },
    }
}

/// What anybody may know of a leaf.
pub fn look(
    held: &mut Held,
    calls: &mut CallList,
    lost: &Option<(Hash, Hash)>,
    label: Label,
) -> Result<Option<LeafView>, ShareFault>
    ensures leads { Leads mem_era 0 (Op.LookLeaf label) (view_reply result)
        (settled (contents_of held.old)) (contents_of held.new) }
    ensures only { IfErr result IsLeafFault }
    ensures lost { TellsLoss lost.now result }
    ensures counted { Counts calls.old calls.new (IsErrOf result ShareFault.Failed) }
{
    let listed = calls.next();
    held.settle();
    if listed.is_some() {
        return Err(ShareFault::Failed);
    }
    if let Some(roots) = lost {
        return Err(tree_lost(roots));
    }
    match held.leaf(label) {
        None => Ok(None),
        Some(leaf) => Ok(Some(leaf.view())),
    }
}

// The least label that has no leaf.
fn free_label(held: &Held) -> Option<Label>
    ensures { IfSome result (λ label. get (leaves_of held.now) label ≡ None) }
{
    for number in 0..LABELS {
        let label = Label::new(number)?;
        if held.leaf(label).is_none() {
            return Some(label);
        }
    }
    None
}

/// A new leaf.
pub fn insert(
    held: &mut Held,
    calls: &mut CallList,
    lost: &Option<(Hash, Hash)>,
    leaf: &NewLeaf,
) -> Result<Label, ShareFault>
    ensures leads { (moment : ℕ) → Leads mem_era moment (Op.InsertLeaf leaf.now) (label_reply result)
        (settled (contents_of held.old)) (contents_of held.new) }
    ensures only { IfErr result IsLeafFault }
    ensures lost { TellsLoss lost.now result }
    ensures counted { Counts calls.old calls.new (IsErrOf result ShareFault.Failed) }
{
    let listed = calls.next();
    held.settle();
    if let Some(roots) = lost {
        return Err(if listed.is_some() {
            ShareFault::Failed
        } else {
            tree_lost(roots)
        });
    }
    let free = free_label(held);
    match listed {
        Some(is_done) => {
            if is_done && let Some(label) = free {
                held.put_doubtful(label, MemLeaf::new(leaf));
            }
            Err(ShareFault::Failed)
        }
        None => {
            if let Some(label) = free
                && held.put_leaf(label, MemLeaf::new(leaf)).is_ok()
            {
                return Ok(label);
            }
            calls.starve();
            Err(ShareFault::Failed)
        }
    }
}

// The fault that tells the roots of a lost tree.
fn tree_lost(roots: &(Hash, Hash)) -> ShareFault
    ensures { result ≡ ShareFault.TreeLost roots.now.0 roots.now.1 }
{
    ShareFault::TreeLost {
        host: roots.0,
        chip: roots.1,
    }
}

// The fault of a leaf that isn't there.
fn no_leaf(label: Label) -> ShareFault
    ensures only { IsTryFault label result }
    ensures damaged { fault_reply result ≡ Reply.Damaged }
{
    ShareFault::Damaged(RecordName::leaf(ACCOUNT, label))
}

/// A try of a leaf.
pub fn try_leaf(
    held: &mut Held,
    calls: &mut CallList,
    lost: &Option<(Hash, Hash)>,
    label: Label,
    les: &Hash,
    moment: u64,
) -> Result<TryAnswer, ShareFault>
    requires { moment < 2 ^ 40 }
    ensures leads { Leads mem_era moment (Op.TryLeaf label les.now) (try_reply result)
        (settled (contents_of held.old)) (contents_of held.new) }
    ensures only { IfErr result (IsTryFault label) }
    ensures lost { TellsLoss lost.now result }
    ensures counted { Counts calls.old calls.new (IsErrOf result ShareFault.Failed) }
{
    let listed = calls.next();
    held.settle();
    if let Some(roots) = lost {
        return Err(if listed.is_some() {
            ShareFault::Failed
        } else {
            tree_lost(roots)
        });
    }
    let Some(leaf) = held.leaf(label) else {
        return Err(if listed.is_some() {
            ShareFault::Failed
        } else {
            no_leaf(label)
        });
    };
    let (answer, tried) = leaf.tried(les, moment);
    match listed {
        Some(is_done) => {
            if is_done {
                held.replace_leaf(label, tried);
            }
            Err(ShareFault::Failed)
        }
        None => {
            held.replace_leaf(label, tried);
            Ok(answer)
        }
    }
}

/// A reset of a leaf.
pub fn reset_leaf(
    held: &mut Held,
    calls: &mut CallList,
    lost: &Option<(Hash, Hash)>,
    label: Label,
    secret: &Hash,
) -> Result<bool, ShareFault>
    ensures leads { (moment : ℕ) → Leads mem_era moment (Op.ResetLeaf label secret.now) (fits_reply result)
        (settled (contents_of held.old)) (contents_of held.new) }
    ensures only { IfErr result (IsTryFault label) }
    ensures lost { TellsLoss lost.now result }
    ensures counted { Counts calls.old calls.new (IsErrOf result ShareFault.Failed) }
{
    let listed = calls.next();
    held.settle();
    if let Some(roots) = lost {
        return Err(if listed.is_some() {
            ShareFault::Failed
        } else {
            tree_lost(roots)
        });
    }
    let Some(leaf) = held.leaf(label) else {
        return Err(if listed.is_some() {
            ShareFault::Failed
        } else {
            no_leaf(label)
        });
    };
    let (fits, reset) = leaf.reset(secret);
    match listed {
        Some(is_done) => {
            if is_done {
                held.replace_leaf(label, reset);
            }
            Err(ShareFault::Failed)
        }
        None => {
            held.replace_leaf(label, reset);
            Ok(fits)
        }
    }
}

// The names of the records and of the leaves, in rising order, and the two lists.
fn list(alloc: Global, held: &Held) -> Result<(Vec<RecordName>, Listing), NoMemory>
    ensures listed { IfOk result (λ both. AreListed both.1.0 both.1.1 both.0.items) }
    ensures names { IfOk result (λ both. both.1.0 ≡ keys (records_of held.now)) }
    ensures labels { IfOk result (λ both. both.1.1 ≡ keys (leaves_of held.now)) }
{
    let names = held.names()?;
    let labels = held.labels()?;
    let mut listed = Vec::new(alloc);
    listed.extend_from_slice(&names)?;
    for label in &labels {
        listed.push(RecordName::leaf(ACCOUNT, *label))?;
    }
    listed.sort()?;
    Ok((listed, Listing::new(names, labels)))
}

/// The names of the records and of the leaves.
pub fn names(
    alloc: Global,
    held: &mut Held,
    calls: &mut CallList,
) -> (Result<Vec<RecordName>, ShareFault>, Reply)
    ensures reply { IsNamesReply result.0 result.1 }
    ensures leads { Leads mem_era 0 Op.Names result.1
        (settled (contents_of held.old)) (contents_of held.new) }
    ensures only { IfErr result.0 IsReadFault }
    ensures counted { Counts calls.old calls.new (IsErrOf result.0 ShareFault.Failed) }
{
    let listed = calls.next();
    held.settle();
    if listed.is_some() {
        return (Err(ShareFault::Failed), Reply::Failed);
    }
    match list(alloc, held) {
        Ok((names, listing)) => (Ok(names), Reply::Listed(listing)),
        Err(NoMemory) => (Err(ShareFault::NoMemory), Reply::NoMemory),
    }
}
