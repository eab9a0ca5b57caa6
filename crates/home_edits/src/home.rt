//! Making a home.

ghost use Rattle.std.specs.Prelude.{◌≡◌, ℕ, ◌≤◌, IsTrue, IsOk, IsErrOf, IfOk, IfErr, OnErr, None};
ghost use Rattle.record_names.specs.Names.{is_account_name};
ghost use Rattle.share_api.specs.Conditions.{IsOf};
ghost use Rattle.secret_stash.specs.Edits.{new_stash};
ghost use Rattle.stored_home.specs.Coherent.{IsCoherent};
ghost use Rattle.stored_home.specs.Sizes.{IsShort};
ghost use Rattle.home_edits.specs.Costs.{PutsCost};
ghost use Rattle.home_edits.specs.Edits.{Edits, IsEditFault};
ghost use Rattle.home_edits.specs.Homes.{MakesHome};
ghost use Rattle.home_edits.specs.Puts.{IsStashPut};

use crate::commit::put_one;
use crate::record_put::{RecordPut, stash_put};
use ct_bytes::NoMemory;
use secret_stash::Stash;
use share_api::Share;
use std::alloc::Global;
use stored_home::{StoreFault, Stored};

// The stash of a new home, and its record.
fn new_home(alloc: Global, account: &str) -> Result<(Stash, RecordPut), NoMemory>
    requires { IsTrue (is_account_name account.now) }
    ensures stash { IfOk result (λ made. made.0 ≡ new_stash account.now) }
    ensures put { IfOk result (λ made. IsStashPut account.now (new_stash account.now) made.1) }
{
    match Stash::new(alloc, account) {
        Ok(stash) => {
            let put = stash_put(account, &stash)?;
            Ok((stash, put))
        }
        Err(_) => Err(NoMemory),
    }
}

/// Makes a home without factors. The put of its stash is the one device step.
///
/// The faults are `NoMemory`, with no step made, and `Failed`. After a fault `stored` is as it was.
pub fn create<S: Share>(
    alloc: Global,
    stored: &mut Stored,
    share: &mut S,
    account: &str,
) -> Result<(), StoreFault>
    requires plain { IsTrue (is_account_name account.now) }
    requires own { IsOf (S.seen share.old).owner account.now }
    requires spare { 1 ≤ (S.seen share.old).spare }
    requires absent { stored.old.stash ≡ None }
    ensures edits { Edits (S.seen share.old) (S.seen share.new) account.now stored.old stored.new
        (IsOk result) (IsErrOf result StoreFault.Failed) MakesHome }
    ensures cost { (cost : ℕ) → PutsCost (S.seen share.old) (S.seen share.new) account.now cost }
    ensures lost { stored.new.lost ≡ stored.old.lost }
    ensures err { OnErr result (stored.new ≡ stored.old) }
    ensures short { IsShort stored.old → IsShort stored.new }
    ensures coherent { IsCoherent account.now stored.old → IsCoherent account.now stored.new }
    ensures only { IfErr result IsEditFault }
    ensures calm { IsErrOf result StoreFault.NoMemory → S.seen share.new ≡ S.seen share.old }
    ensures goes { S.goes share.old share.new }
{
    let (stash, put) = new_home(alloc, account)?;
    put_one(share, put)?;
    stored.stash = Some(stash);
    Ok(())
}
