//! The device steps of edits, in order.

ghost use Rattle.std.specs.Prelude.{◌≡◌, ◌≤◌, ◌+◌, length, [], ◌∷◌, IsOk, IsErr, IsErrOf};
ghost use Rattle.share_api.specs.Conditions.{IsOwnName};
ghost use Rattle.share_api.specs.Seen.{Tries};
ghost use Rattle.share_api.specs.declared.step.Write.{Write};
ghost use Rattle.home_edits.specs.Edits.{told_fault};

use crate::record_put::RecordPut;
use record_names::RecordName;
use share_api::{Share, ShareFault};
use stored_home::StoreFault;

/// A share's fault, as an edit tells it.
pub(crate) fn told_fault(fault: ShareFault) -> StoreFault
    ensures value { result ≡ told_fault fault }
{
    match fault {
        ShareFault::Failed => StoreFault::Failed,
        ShareFault::TreeLost { host, chip } => StoreFault::TreeLost { host, chip },
        ShareFault::Damaged(name) => StoreFault::Damaged(name),
        ShareFault::NoMemory => StoreFault::NoMemory,
    }
}

/// Puts a record.
pub(crate) fn put_one<S: Share>(share: &mut S, put: RecordPut) -> Result<(), StoreFault>
    requires spare { 1 ≤ (S.seen share.old).spare }
    requires own { IsOwnName (S.seen share.old).owner put.name }
    requires size { length put.bytes ≤ 49181 }
    ensures tried { Tries (S.seen share.old) (S.seen share.new)
        (Write.Put put.name put.bytes ∷ []) (IsOk result) (IsErr result) }
    ensures only { IsErr result → IsErrOf result StoreFault.Failed }
    ensures owner { (S.seen share.new).owner ≡ (S.seen share.old).owner }
    ensures spare { (S.seen share.new).spare + 1 ≡ (S.seen share.old).spare }
    ensures goes { S.goes share.old share.new }
{
    let RecordPut { name, bytes } = put;
    match share.put(&name, bytes) {
        Ok(()) => Ok(()),
        Err(_) => Err(StoreFault::Failed),
    }
}

/// Puts a record, and then another.
pub(crate) fn put_both<S: Share>(
    share: &mut S,
    first: RecordPut,
    second: RecordPut,
) -> Result<(), StoreFault>
    requires spare { 2 ≤ (S.seen share.old).spare }
    requires first_own { IsOwnName (S.seen share.old).owner first.name }
    requires second_own { IsOwnName (S.seen share.old).owner second.name }
    requires first_size { length first.bytes ≤ 49181 }
    requires second_size { length second.bytes ≤ 49181 }
    ensures tried { Tries (S.seen share.old) (S.seen share.new)
        (Write.Put first.name first.bytes ∷ Write.Put second.name second.bytes ∷ []) (IsOk result) (IsErr result) }
    ensures only { IsErr result → IsErrOf result StoreFault.Failed }
    ensures goes { S.goes share.old share.new }
{
    put_one(share, first)?;
    put_one(share, second)
}

/// Removes a record.
fn remove_one<S: Share>(share: &mut S, name: &RecordName) -> Result<(), StoreFault>
    requires spare { 1 ≤ (S.seen share.old).spare }
    requires own { IsOwnName (S.seen share.old).owner name.now }
    ensures tried { Tries (S.seen share.old) (S.seen share.new)
        (Write.Remove name.now ∷ []) (IsOk result) (IsErr result) }
    ensures only { IsErr result → IsErrOf result StoreFault.Failed }
    ensures goes { S.goes share.old share.new }
{
    match share.remove(name) {
        Ok(()) => Ok(()),
        Err(_) => Err(StoreFault::Failed),
    }
}

/// Puts a record, and then removes one.
pub(crate) fn put_then_remove<S: Share>(
    share: &mut S,
    put: RecordPut,
    old: &RecordName,
) -> Result<(), StoreFault>
    requires spare { 2 ≤ (S.seen share.old).spare }
    requires put_own { IsOwnName (S.seen share.old).owner put.name }
    requires old_own { IsOwnName (S.seen share.old).owner old.now }
    requires size { length put.bytes ≤ 49181 }
    ensures tried { Tries (S.seen share.old) (S.seen share.new)
        (Write.Put put.name put.bytes ∷ Write.Remove old.now ∷ []) (IsOk result) (IsErr result) }
    ensures only { IsErr result → IsErrOf result StoreFault.Failed }
    ensures goes { S.goes share.old share.new }
{
    put_one(share, put)?;
    remove_one(share, old)
}

/// Puts a record and another, and then removes one.
pub(crate) fn replace<S: Share>(
    share: &mut S,
    first: RecordPut,
    second: RecordPut,
    old: &RecordName,
) -> Result<(), StoreFault>
    requires spare { 3 ≤ (S.seen share.old).spare }
    requires first_own { IsOwnName (S.seen share.old).owner first.name }
    requires second_own { IsOwnName (S.seen share.old).owner second.name }
    requires old_own { IsOwnName (S.seen share.old).owner old.now }
    requires first_size { length first.bytes ≤ 49181 }
    requires second_size { length second.bytes ≤ 49181 }
    ensures tried { Tries (S.seen share.old) (S.seen share.new)
        (Write.Put first.name first.bytes ∷ Write.Put second.name second.bytes ∷ Write.Remove old.now ∷ [])
        (IsOk result) (IsErr result) }
    ensures only { IsErr result → IsErrOf result StoreFault.Failed }
    ensures goes { S.goes share.old share.new }
{
    put_one(share, first)?;
    put_then_remove(share, second, old)
}
