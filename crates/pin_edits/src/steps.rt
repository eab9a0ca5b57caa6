//! The device steps of edits, in order.

ghost use Rattle.std.specs.Prelude.{◌≡◌, ◌≢◌, ◌⊎◌, ◌≤◌, ◌<◌, ◌+◌, ◌^◌, [], ◌∷◌, IsSome, IsOk, IsErr, IsErrOf, IfErr, None};
ghost use Rattle.share_api.specs.Seen.{Makes, Tries, step_of};
ghost use Rattle.share_api.specs.declared.step.Op.{Op};
ghost use Rattle.share_api.specs.declared.step.Write.{Write};
ghost use Rattle.pin_edits.specs.Writes.{IsOwnWrite, IsOwnRest, rest_of, ended, inserted, inserted_reply};

use pw_path::Label;
use share_api::{NewLeaf, Share, ShareFault, Write};
use stored_home::StoreFault;

// How a change ended, where the tree isn't lost.
fn ended(tried: Result<(), ShareFault>) -> Result<(), StoreFault>
    ensures value { result ≡ ended tried }
{
    match tried {
        Ok(()) => Ok(()),
        Err(_) => Err(StoreFault::Failed),
    }
}

/// Makes a change.
pub(crate) fn change<S: Share>(share: &mut S, write: Write, moment: u64) -> Result<(), StoreFault>
    requires spare { 1 ≤ (S.seen share.old).spare }
    requires own { IsOwnWrite (S.seen share.old).owner write }
    requires moment { moment < 2 ^ 40 }
    requires tree { (S.seen share.old).lost ≡ None }
    ensures tried { Tries (S.seen share.old) (S.seen share.new) (write ∷ []) (IsOk result) (IsErr result) }
    ensures only { IsErr result → IsErrOf result StoreFault.Failed }
    ensures owner { (S.seen share.new).owner ≡ (S.seen share.old).owner }
    ensures spare { (S.seen share.new).spare + 1 ≡ (S.seen share.old).spare }
    ensures lost { (S.seen share.new).lost ≡ (S.seen share.old).lost }
    ensures goes { S.goes share.old share.new }
{
    match write {
        Write::Put(name, bytes) => ended(share.put(&name, bytes)),
        Write::Remove(name) => ended(share.remove(&name)),
        Write::RemoveLeaf(label) => ended(share.remove_leaf(label, moment)),
    }
}

/// Makes a change, and then another.
pub(crate) fn change_both<S: Share>(
    share: &mut S,
    first: Write,
    second: Write,
    moment: u64,
) -> Result<(), StoreFault>
    requires spare { 2 ≤ (S.seen share.old).spare }
    requires first_own { IsOwnWrite (S.seen share.old).owner first }
    requires second_own { IsOwnWrite (S.seen share.old).owner second }
    requires moment { moment < 2 ^ 40 }
    requires tree { (S.seen share.old).lost ≡ None }
    ensures tried { Tries (S.seen share.old) (S.seen share.new) (first ∷ second ∷ [])
        (IsOk result) (IsErr result) }
    ensures only { IsErr result → IsErrOf result StoreFault.Failed }
    ensures goes { S.goes share.old share.new }
{
    change(share, first, moment)?;
    change(share, second, moment)
}

/// Makes three changes, up to the first that fails.
pub(crate) fn change_three<S: Share>(
    share: &mut S,
    first: Write,
    second: Write,
    third: Write,
    moment: u64,
) -> Result<(), StoreFault>
    requires spare { 3 ≤ (S.seen share.old).spare }
    requires first_own { IsOwnWrite (S.seen share.old).owner first }
    requires second_own { IsOwnWrite (S.seen share.old).owner second }
    requires third_own { IsOwnWrite (S.seen share.old).owner third }
    requires moment { moment < 2 ^ 40 }
    requires tree { (S.seen share.old).lost ≡ None }
    ensures tried { Tries (S.seen share.old) (S.seen share.new) (first ∷ second ∷ third ∷ [])
        (IsOk result) (IsErr result) }
    ensures only { IsErr result → IsErrOf result StoreFault.Failed }
    ensures goes { S.goes share.old share.new }
{
    change(share, first, moment)?;
    change_both(share, second, third, moment)
}

/// Makes four changes, up to the first that fails.
pub(crate) fn change_four<S: Share>(
    share: &mut S,
    first: Write,
    second: Write,
    third: Write,
    fourth: Write,
    moment: u64,
) -> Result<(), StoreFault>
    requires spare { 4 ≤ (S.seen share.old).spare }
    requires first_own { IsOwnWrite (S.seen share.old).owner first }
    requires second_own { IsOwnWrite (S.seen share.old).owner second }
    requires third_own { IsOwnWrite (S.seen share.old).owner third }
    requires fourth_own { IsOwnWrite (S.seen share.old).owner fourth }
    requires moment { moment < 2 ^ 40 }
    requires tree { (S.seen share.old).lost ≡ None }
    ensures tried { Tries (S.seen share.old) (S.seen share.new) (first ∷ second ∷ third ∷ fourth ∷ [])
        (IsOk result) (IsErr result) }
    ensures only { IsErr result → IsErrOf result StoreFault.Failed }
    ensures goes { S.goes share.old share.new }
{
    change(share, first, moment)?;
    change_three(share, second, third, fourth, moment)
}

/// Puts a PIN's record and then the stash, which is the commit point, and takes away what the PIN had: its leaf, and
/// then its record.
pub(crate) fn change_set<S: Share>(
    share: &mut S,
    row_put: Write,
    stash_put: Write,
    old: Option<(Write, Write)>,
    moment: u64,
) -> Result<(), StoreFault>
    requires spare { 2 ≤ (S.seen share.old).spare }
    requires more { IsSome old → 4 ≤ (S.seen share.old).spare }
    requires row_own { IsOwnWrite (S.seen share.old).owner row_put }
    requires stash_own { IsOwnWrite (S.seen share.old).owner stash_put }
    requires rest_own { IsOwnRest (S.seen share.old).owner old }
    requires moment { moment < 2 ^ 40 }
    requires tree { (S.seen share.old).lost ≡ None }
    ensures tried { Tries (S.seen share.old) (S.seen share.new) (row_put ∷ stash_put ∷ rest_of old)
        (IsOk result) (IsErr result) }
    ensures only { IsErr result → IsErrOf result StoreFault.Failed }
    ensures goes { S.goes share.old share.new }
{
    match old {
        None => change_both(share, row_put, stash_put, moment),
        Some((leaf, record)) => change_four(share, row_put, stash_put, leaf, record, moment),
    }
}

// How the insert of a leaf ended, where the tree isn't lost.
fn inserted(tried: Result<Label, ShareFault>) -> Result<Label, StoreFault>
    ensures value { result ≡ inserted tried }
{
    match tried {
        Ok(label) => Ok(label),
        Err(_) => Err(StoreFault::Failed),
    }
}

/// Makes a leaf.
pub(crate) fn insert<S: Share>(
    share: &mut S,
    leaf: &NewLeaf,
    moment: u64,
) -> Result<Label, StoreFault>
    requires spare { 1 ≤ (S.seen share.old).spare }
    requires moment { moment < 2 ^ 40 }
    requires tree { (S.seen share.old).lost ≡ None }
    ensures made { Makes (S.seen share.old) (S.seen share.new)
        (step_of (S.seen share.old) moment (Op.InsertLeaf leaf.now) (inserted_reply result)) }
    ensures only { IsErr result → IsErrOf result StoreFault.Failed }
    ensures owner { (S.seen share.new).owner ≡ (S.seen share.old).owner }
    ensures spare { (S.seen share.new).spare + 1 ≡ (S.seen share.old).spare }
    ensures lost { (S.seen share.new).lost ≡ (S.seen share.old).lost }
    ensures goes { S.goes share.old share.new }
{
    inserted(share.insert_leaf(leaf, moment))
}

/// Takes a new leaf away again, where it isn't named, and tells why.
pub(crate) fn give_back<S: Share>(
    share: &mut S,
    tree: Label,
    fault: StoreFault,
    moment: u64,
) -> Result<(), StoreFault>
    requires spare { 1 ≤ (S.seen share.old).spare }
    requires moment { moment < 2 ^ 40 }
    requires tree { (S.seen share.old).lost ≡ None }
    requires other { fault ≢ StoreFault.Failed }
    ensures tried { Tries (S.seen share.old) (S.seen share.new) (Write.RemoveLeaf tree ∷ [])
        (IsErrOf result StoreFault.Failed → ⊥) (IsErrOf result StoreFault.Failed) }
    ensures none { IsOk result → ⊥ }
    ensures only { IfErr result (λ told. (told ≡ fault) ⊎ (told ≡ StoreFault.Failed)) }
    ensures goes { S.goes share.old share.new }
{
    change(share, Write::RemoveLeaf(tree), moment)?;
    Err(fault)
}
