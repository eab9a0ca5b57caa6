//! Sealing a password's block anew.

ghost use Rattle.std.specs.Prelude.{◌≡◌, ℕ, ◌≤◌, IsTrue, IsOk, IsErrOf, IfOk, IfErr, OnErr, IsSomeAnd, Some};
ghost use Rattle.std.specs.FinMap.{get};
ghost use Rattle.record_names.specs.Names.{is_account_name, is_factor_label};
ghost use Rattle.factor_files.specs.declared.factor.FactorRecord.{FactorRecord as RowSeen};
ghost use Rattle.stash_format.specs.declared.contents.Contents.{Contents as StashSeen};
ghost use Rattle.share_api.specs.Conditions.{IsOf};
ghost use Rattle.stored_home.specs.Coherent.{IsCoherent};
ghost use Rattle.stored_home.specs.Sizes.{IsShort};
ghost use Rattle.home_edits.specs.Costs.{PutsCost};
ghost use Rattle.home_edits.specs.Edits.{Edits, IsEditFault};
ghost use Rattle.home_edits.specs.Reseals.{TakesReseal, IsResealed, Reseals, KeepsResealed, with_resealed};

use crate::commit::put_one;
use crate::passwords::wrap_of;
use crate::record_put::{RecordPut, stash_put};
use ct_bytes::{NoMemory, Text};
use factor_files::FactorRecord;
use secret_stash::Stash;
use share_api::Share;
use stored_home::{StoreFault, Stored};

// The stash with a new block for a password's record.
fn with_resealed(
    stash: &Stash,
    label: &Text,
    row: &FactorRecord,
    key: &[u8; 64],
    main: &[u8; 32],
    iv: [u8; 12],
) -> Result<Stash, NoMemory>
    requires label { IsTrue (is_factor_label label.now) }
    requires takes { TakesReseal label.now row.now stash.now }
    ensures value { IfOk result (λ made. made ≡ with_resealed stash.now label.now row.now key.now main.now iv) }
{
    let Ok(mut made) = stash.copy() else {
        return Err(NoMemory);
    };
    let Ok(()) = made.add_block(label.as_str(), row.edition, &wrap_of(key), main, iv) else {
        return Err(NoMemory);
    };
    Ok(made)
}

// The stash with a new block for a password's record, and its own record.
fn resealed(
    account: &str,
    stash: &Stash,
    label: &Text,
    row: &FactorRecord,
    key: &[u8; 64],
    main: &[u8; 32],
    iv: [u8; 12],
) -> Result<(Stash, RecordPut), NoMemory>
    requires plain { IsTrue (is_account_name account.now) }
    requires label { IsTrue (is_factor_label label.now) }
    requires takes { TakesReseal label.now row.now stash.now }
    ensures value { IfOk result (λ made.
        IsResealed account.now label.now key.now main.now iv row.now stash.now made.0 made.1) }
{
    let made = with_resealed(stash, label, row, key, main, iv)?;
    let put = stash_put(account, &made)?;
    Ok((made, put))
}

/// Seals a password's block anew, bound to account, label and edition. The put of the stash is the one device step.
///
/// `main` is the home's main key, and `key` is derived of the password's secret with its record's salt and cost. No two
/// keys may be wrapped under one key and IV. The faults are `NoMemory`, with no step made, and `Failed`. After a fault
/// `stored` is as it was.
pub fn reseal_password<S: Share>(
    stored: &mut Stored,
    share: &mut S,
    account: &str,
    label: &Text,
    key: &[u8; 64],
    main: &[u8; 32],
    iv: [u8; 12],
) -> Result<(), StoreFault>
    requires plain { IsTrue (is_account_name account.now) }
    requires own { IsOf (S.seen share.old).owner account.now }
    requires spare { 1 ≤ (S.seen share.old).spare }
    requires label { IsTrue (is_factor_label label.now) }
    requires known { IsSomeAnd (get stored.old.factors label.now)
        (λ row. IsSomeAnd stored.old.stash (TakesReseal label.now row)) }
    ensures edits { Edits (S.seen share.old) (S.seen share.new) account.now stored.old stored.new
        (IsOk result) (IsErrOf result StoreFault.Failed) (Reseals account.now label.now key.now main.now) }
    ensures cost { (cost : ℕ) → PutsCost (S.seen share.old) (S.seen share.new) account.now cost }
    ensures lost { stored.new.lost ≡ stored.old.lost }
    ensures err { OnErr result (stored.new ≡ stored.old) }
    ensures short { IsShort stored.old → IsShort stored.new }
    ensures coherent { IsCoherent account.now stored.old → IsCoherent account.now stored.new }
    ensures only { IfErr result IsEditFault }
    ensures calm { IsErrOf result StoreFault.NoMemory → S.seen share.new ≡ S.seen share.old }
    ensures ok { IsOk result → KeepsResealed label.now key.now main.now iv stored.old stored.new }
    ensures goes { S.goes share.old share.new }
{
    let (made, put) = prepare_reseal(stored, account, label, key, main, iv)?;
    put_one(share, put)?;
    stored.stash = Some(made);
    Ok(())
}

// The loaded stash with a new block for the label's password, and its record.
fn prepare_reseal(
    stored: &Stored,
    account: &str,
    label: &Text,
    key: &[u8; 64],
    main: &[u8; 32],
    iv: [u8; 12],
) -> Result<(Stash, RecordPut), NoMemory>
    requires plain { IsTrue (is_account_name account.now) }
    requires label { IsTrue (is_factor_label label.now) }
    requires known { IsSomeAnd (get stored.now.factors label.now)
        (λ row. IsSomeAnd stored.now.stash (TakesReseal label.now row)) }
    ensures value { IfOk result (λ made. (row : RowSeen) (stash : StashSeen)
        → get stored.now.factors label.now ≡ Some row → stored.now.stash ≡ Some stash
        → IsResealed account.now label.now key.now main.now iv row stash made.0 made.1) }
{
    let Some(stash) = &stored.stash else {
        unreachable!()
    };
    let Some(row) = stored.factors.get(label) else {
        unreachable!()
    };
    resealed(account, stash, label, row, key, main, iv)
}
