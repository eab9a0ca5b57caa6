//! The edits of passwords.

ghost use Rattle.std.specs.Prelude.{◌≡◌, ℕ, ◌≤◌, ◌<◌, ◌^◌, ◌-◌, length, IsTrue, IsSome, IsOk, IsErr, IsErrOf, IfOk, IfErr, OnOk, OnErr, IsSomeAnd, None, Some, [], ◌∷◌, take};
ghost use Rattle.std.specs.FinMap.{get, len};
ghost use Rattle.record_names.specs.Names.{is_account_name, is_factor_label, factor_name};
ghost use Rattle.share_api.specs.Conditions.{IsOf, IsOwnName};
ghost use Rattle.share_api.specs.Seen.{Tries};
ghost use Rattle.share_api.specs.declared.step.Write.{Write};
ghost use Rattle.stored_home.specs.Coherent.{IsCoherent};
ghost use Rattle.stored_home.specs.Sizes.{IsShort};
ghost use Rattle.home_edits.specs.Costs.{PutsCost};
ghost use Rattle.home_edits.specs.Edits.{Edits, IsEditFault};
ghost use Rattle.factor_files.specs.declared.factor.FactorRecord.{FactorRecord as RowSeen};
ghost use Rattle.secret_stash.specs.Edits.{without_block};
ghost use Rattle.home_edits.specs.Puts.{IsStashPut};
ghost use Rattle.home_edits.specs.Removals.{LosesFactor, RemovesFactor, KeepsPassword};
ghost use Rattle.home_edits.specs.Passwords.{password_row, with_password, TakesFactor, SetsPassword, AreFactorPuts};

use crate::commit::{put_both, put_then_remove, replace};
use crate::factor_puts::{FactorPuts, factor_puts};
use crate::record_put::{RecordPut, stash_put};
use account_machine::Kind;
use ct_bytes::{NoMemory, Text};
use factor_files::FactorRecord;
use name_map::NameMap;
use record_names::RecordName;
use secret_stash::Stash;
use share_api::Share;
use std::alloc::Global;
use stored_home::{Derived, StoreFault, Stored};

/// The wrap key of a password: the first half of what is derived of it.
pub fn wrap_of(key: &[u8; 64]) -> [u8; 32]
    ensures { result ≡ take 32 key.now }
{
    let mut wrap = [0u8; 32];
    wrap.copy_from_slice(&key[..32]);
    wrap
}

/// The record of a password.
pub(crate) fn new_row(
    label: &Text,
    edition: u64,
    derived: &Derived,
) -> Result<FactorRecord, NoMemory>
    ensures value { IfOk result (λ row. row ≡ password_row label.now edition derived.now) }
{
    let label = label.copy()?;
    Ok(FactorRecord {
        kind: Kind::Password,
        label,
        edition,
        cost: derived.cost,
        salt: derived.salt,
        leaf: None,
    })
}

/// The stash with a password's block, under the next edition but one.
pub(crate) fn with_block(
    stash: &Stash,
    label: &Text,
    derived: &Derived,
    main: &[u8; 32],
    iv: [u8; 12],
) -> Result<Stash, NoMemory>
    requires below { stash.now.next < 2 ^ 64 - 1 }
    requires room { get stash.now.blocks label.now ≡ None → len stash.now.blocks < 32 }
    requires label { IsTrue (is_factor_label label.now) }
    ensures value { IfOk result (λ made. made ≡ with_password stash.now label.now derived.now main.now iv) }
{
    let edition = stash.next();
    let Ok(mut made) = stash.copy() else {
        return Err(NoMemory);
    };
    made.set_next(edition + 1);
    let Ok(()) = made.add_block(label.as_str(), edition, &wrap_of(&derived.key), main, iv) else {
        return Err(NoMemory);
    };
    Ok(made)
}

// The records and the loaded state of an edit that sets a password.
fn prepare(
    alloc: Global,
    account: &str,
    rows: &NameMap<FactorRecord>,
    stash: &Stash,
    label: &Text,
    derived: &Derived,
    main: &[u8; 32],
    iv: [u8; 12],
) -> Result<FactorPuts, NoMemory>
    requires plain { IsTrue (is_account_name account.now) }
    requires label { IsTrue (is_factor_label label.now) }
    requires takes { TakesFactor label.now stash.now }
    requires least { 1 ≤ derived.now.cost }
    requires most { derived.now.cost ≤ 16 }
    ensures value { IfOk result (λ puts. AreFactorPuts account.now rows.now
        (with_password stash.now label.now derived.now main.now iv)
        (password_row label.now stash.now.next derived.now) puts) }
{
    let row = new_row(label, stash.next(), derived)?;
    let made = with_block(stash, label, derived, main, iv)?;
    factor_puts(alloc, account, rows, made, row)
}

/// The two puts, and the loaded state after them. The second put is the commit point.
pub(crate) fn commit<S: Share>(
    stored: &mut Stored,
    share: &mut S,
    puts: FactorPuts,
) -> Result<(), StoreFault>
    requires spare { 2 ≤ (S.seen share.old).spare }
    requires row_own { IsOwnName (S.seen share.old).owner puts.row_put.name }
    requires stash_own { IsOwnName (S.seen share.old).owner puts.stash_put.name }
    requires row_size { length puts.row_put.bytes ≤ 49181 }
    requires stash_size { length puts.stash_put.bytes ≤ 49181 }
    ensures tried { Tries (S.seen share.old) (S.seen share.new)
        (Write.Put puts.row_put.name puts.row_put.bytes ∷ Write.Put puts.stash_put.name puts.stash_put.bytes ∷ [])
        (IsOk result) (IsErr result) }
    ensures ok { OnOk result (stored.new ≡ record stored.old { stash = Some puts.stash; factors = puts.factors }) }
    ensures lost { stored.new.lost ≡ stored.old.lost }
    ensures err { OnErr result (stored.new ≡ stored.old) }
    ensures only { IsErr result → IsErrOf result StoreFault.Failed }
    ensures goes { S.goes share.old share.new }
{
    let FactorPuts {
        stash,
        factors,
        row_put,
        stash_put,
    } = puts;
    put_both(share, row_put, stash_put)?;
    stored.stash = Some(stash);
    stored.factors = factors;
    Ok(())
}

/// Adds a password to a home that has factors, with its block and its record. The steps are the put of the
/// record and the put of the stash, which is the commit point.
///
/// `main` is the home's main key, and `derived` is derived of the new secret. No two keys may be wrapped under
/// one key and IV. The faults are `NoMemory`, with no step made, and `Failed`. After a fault `stored` is as it was.
pub fn add_password<S: Share>(
    alloc: Global,
    stored: &mut Stored,
    share: &mut S,
    account: &str,
    label: &Text,
    derived: &Derived,
    main: &[u8; 32],
    iv: [u8; 12],
) -> Result<(), StoreFault>
    requires plain { IsTrue (is_account_name account.now) }
    requires own { IsOf (S.seen share.old).owner account.now }
    requires spare { 2 ≤ (S.seen share.old).spare }
    requires home { IsSomeAnd stored.old.stash (TakesFactor label.now) }
    requires label { IsTrue (is_factor_label label.now) }
    requires absent { get stored.old.factors label.now ≡ None }
    requires least { 1 ≤ derived.now.cost }
    requires most { derived.now.cost ≤ 16 }
    ensures edits { Edits (S.seen share.old) (S.seen share.new) account.now stored.old stored.new
        (IsOk result) (IsErrOf result StoreFault.Failed) (SetsPassword label.now derived.now main.now) }
    ensures cost { PutsCost (S.seen share.old) (S.seen share.new) account.now derived.now.cost }
    ensures lost { stored.new.lost ≡ stored.old.lost }
    ensures err { OnErr result (stored.new ≡ stored.old) }
    ensures short { IsShort stored.old → IsShort stored.new }
    ensures coherent { IsCoherent account.now stored.old → IsCoherent account.now stored.new }
    ensures only { IfErr result IsEditFault }
    ensures calm { IsErrOf result StoreFault.NoMemory → S.seen share.new ≡ S.seen share.old }
    ensures goes { S.goes share.old share.new }
{
    let Some(stash) = &stored.stash else {
        unreachable!()
    };
    let puts = prepare(
        alloc,
        account,
        &stored.factors,
        stash,
        label,
        derived,
        main,
        iv,
    )?;
    commit(stored, share, puts)
}

// The name of the record that a label's factor has, which is a password.
fn record_of(account: &str, rows: &NameMap<FactorRecord>, label: &Text) -> RecordName
    requires plain { IsTrue (is_account_name account.now) }
    requires label { IsTrue (is_factor_label label.now) }
    requires known { IsSome (get rows.now label.now) }
    ensures value { (row : RowSeen) → get rows.now label.now ≡ Some row
        → result ≡ factor_name account.now label.now row.edition }
{
    let Some(row) = rows.get(label) else {
        unreachable!()
    };
    RecordName::factor(account, label.as_str(), row.edition)
}

// The two puts and the removal of the old record, and the loaded state after them. The second put is the
// commit point.
fn commit_update<S: Share>(
    stored: &mut Stored,
    share: &mut S,
    puts: FactorPuts,
    old: &RecordName,
) -> Result<(), StoreFault>
    requires spare { 3 ≤ (S.seen share.old).spare }
    requires row_own { IsOwnName (S.seen share.old).owner puts.row_put.name }
    requires stash_own { IsOwnName (S.seen share.old).owner puts.stash_put.name }
    requires old_own { IsOwnName (S.seen share.old).owner old.now }
    requires row_size { length puts.row_put.bytes ≤ 49181 }
    requires stash_size { length puts.stash_put.bytes ≤ 49181 }
    ensures tried { Tries (S.seen share.old) (S.seen share.new)
        (Write.Put puts.row_put.name puts.row_put.bytes ∷ Write.Put puts.stash_put.name puts.stash_put.bytes
        ∷ Write.Remove old.now ∷ [])
        (IsOk result) (IsErr result) }
    ensures ok { OnOk result (stored.new ≡ record stored.old { stash = Some puts.stash; factors = puts.factors }) }
    ensures lost { stored.new.lost ≡ stored.old.lost }
    ensures err { OnErr result (stored.new ≡ stored.old) }
    ensures only { IsErr result → IsErrOf result StoreFault.Failed }
    ensures goes { S.goes share.old share.new }
{
    let FactorPuts {
        stash,
        factors,
        row_put,
        stash_put,
    } = puts;
    replace(share, row_put, stash_put, old)?;
    stored.stash = Some(stash);
    stored.factors = factors;
    Ok(())
}

/// Gives a password another secret, under the next edition. The steps are the put of its new record, the put of
/// the stash, which is the commit point, and the removal of its old record.
///
/// `main` is the home's main key, and `derived` is derived of the new secret. No two keys may be wrapped under
/// one key and IV. The faults are `NoMemory`, with no step made, and `Failed`, also after the commit point. After
/// a fault `stored` is as it was.
pub fn update_password<S: Share>(
    alloc: Global,
    stored: &mut Stored,
    share: &mut S,
    account: &str,
    label: &Text,
    derived: &Derived,
    main: &[u8; 32],
    iv: [u8; 12],
) -> Result<(), StoreFault>
    requires plain { IsTrue (is_account_name account.now) }
    requires own { IsOf (S.seen share.old).owner account.now }
    requires spare { 3 ≤ (S.seen share.old).spare }
    requires home { IsSomeAnd stored.old.stash (TakesFactor label.now) }
    requires label { IsTrue (is_factor_label label.now) }
    requires known { IsSomeAnd (get stored.old.factors label.now) (λ row. row.leaf ≡ None) }
    requires least { 1 ≤ derived.now.cost }
    requires most { derived.now.cost ≤ 16 }
    ensures edits { Edits (S.seen share.old) (S.seen share.new) account.now stored.old stored.new
        (IsOk result) (IsErrOf result StoreFault.Failed) (SetsPassword label.now derived.now main.now) }
    ensures cost { PutsCost (S.seen share.old) (S.seen share.new) account.now derived.now.cost }
    ensures lost { stored.new.lost ≡ stored.old.lost }
    ensures err { OnErr result (stored.new ≡ stored.old) }
    ensures short { IsShort stored.old → IsShort stored.new }
    ensures coherent { IsCoherent account.now stored.old → IsCoherent account.now stored.new }
    ensures only { IfErr result IsEditFault }
    ensures calm { IsErrOf result StoreFault.NoMemory → S.seen share.new ≡ S.seen share.old }
    ensures goes { S.goes share.old share.new }
{
    let Some(stash) = &stored.stash else {
        unreachable!()
    };
    let old = record_of(account, &stored.factors, label);
    let puts = prepare(
        alloc,
        account,
        &stored.factors,
        stash,
        label,
        derived,
        main,
        iv,
    )?;
    commit_update(stored, share, puts, &old)
}

// The stash without a label's block.
fn without(stash: &Stash, label: &Text) -> Result<Stash, NoMemory>
    requires { IsSome (get stash.now.blocks label.now) }
    ensures value { IfOk result (λ made. made ≡ without_block stash.now label.now) }
{
    let Ok(mut made) = stash.copy() else {
        return Err(NoMemory);
    };
    let Ok(()) = made.drop_block(label.as_str()) else {
        return Err(NoMemory);
    };
    Ok(made)
}

// The stash without a label's block, and its record.
fn prepare_removal(
    account: &str,
    stash: &Stash,
    label: &Text,
) -> Result<(Stash, RecordPut), NoMemory>
    requires plain { IsTrue (is_account_name account.now) }
    requires loses { LosesFactor label.now stash.now }
    ensures stash { IfOk result (λ made. made.0 ≡ without_block stash.now label.now) }
    ensures put { IfOk result (λ made. IsStashPut account.now (without_block stash.now label.now) made.1) }
{
    let made = without(stash, label)?;
    let put = stash_put(account, &made)?;
    Ok((made, put))
}

/// Removes a password. The steps are the put of the stash without its block, which is the commit point, and the
/// removal of its record.
///
/// The faults are `NoMemory`, with no step made, and `Failed`, also after the commit point. After a fault
/// `stored` is as it was.
pub fn remove_password<S: Share>(
    stored: &mut Stored,
    share: &mut S,
    account: &str,
    label: &Text,
) -> Result<(), StoreFault>
    requires plain { IsTrue (is_account_name account.now) }
    requires own { IsOf (S.seen share.old).owner account.now }
    requires spare { 2 ≤ (S.seen share.old).spare }
    requires home { IsSomeAnd stored.old.stash (LosesFactor label.now) }
    requires label { IsTrue (is_factor_label label.now) }
    requires known { IsSomeAnd (get stored.old.factors label.now) (λ row. row.leaf ≡ None) }
    ensures edits { Edits (S.seen share.old) (S.seen share.new) account.now stored.old stored.new
        (IsOk result) (IsErrOf result StoreFault.Failed) (RemovesFactor label.now) }
    ensures cost { (cost : ℕ) → PutsCost (S.seen share.old) (S.seen share.new) account.now cost }
    ensures lost { stored.new.lost ≡ stored.old.lost }
    ensures err { OnErr result (stored.new ≡ stored.old) }
    ensures short { IsShort stored.old → IsShort stored.new }
    ensures coherent { KeepsPassword label.now stored.old.factors → IsCoherent account.now stored.old
        → IsCoherent account.now stored.new }
    ensures only { IfErr result IsEditFault }
    ensures calm { IsErrOf result StoreFault.NoMemory → S.seen share.new ≡ S.seen share.old }
    ensures goes { S.goes share.old share.new }
{
    let Some(stash) = &stored.stash else {
        unreachable!()
    };
    let old = record_of(account, &stored.factors, label);
    let (stash, put) = prepare_removal(account, stash, label)?;
    put_then_remove(share, put, &old)?;
    stored.stash = Some(stash);
    stored.factors.remove(label);
    Ok(())
}
