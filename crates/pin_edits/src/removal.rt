//! Removing a PIN.

ghost use Rattle.std.specs.Prelude.{◌≡◌, ℕ, ◌≤◌, ◌<◌, ◌^◌, IsTrue, IsSome, IsOk, IsErrOf, IfOk, IfErr, OnErr, IsSomeAnd, None, Some, is_some};
ghost use Rattle.std.specs.FinMap.{get};
ghost use Rattle.record_names.specs.Names.{is_account_name, is_factor_label, factor_name};
ghost use Rattle.share_api.specs.Conditions.{IsOf};
ghost use Rattle.share_api.specs.declared.step.Write.{Write};
ghost use Rattle.factor_files.specs.declared.factor.FactorRecord.{FactorRecord as RowSeen};
ghost use Rattle.secret_stash.specs.Edits.{without_block};
ghost use Rattle.stored_home.specs.Coherent.{IsCoherent};
ghost use Rattle.stored_home.specs.Sizes.{IsShort};
ghost use Rattle.home_edits.specs.Costs.{PutsCost};
ghost use Rattle.home_edits.specs.Edits.{Edits, IsEditFault};
ghost use Rattle.home_edits.specs.Removals.{LosesFactor, RemovesFactor};
ghost use Rattle.pin_edits.specs.Faults.{IsPinFault, TellsLost};
ghost use Rattle.pin_edits.specs.Writes.{IsStashWrite};

use crate::lost::in_step;
use crate::records::stash_write;
use crate::steps::change_three;
use ct_bytes::{NoMemory, Text};
use factor_files::FactorRecord;
use name_map::NameMap;
use record_names::RecordName;
use secret_stash::Stash;
use share_api::{Share, Write};
use stored_home::{StoreFault, Stored};

// The stash without a label's block.
fn without(stash: &Stash, label: &Text) -> Result<Stash, NoMemory>
    requires { IsSome (get stash.now.blocks label.now) }
    ensures value { IfOk result (λ made. made ≡ without_block stash.now label.now) }
{
    let Ok(mut made) = stash.copy() else {
        return Err(NoMemory);
    };
    let Ok(()) = made.drop_block(label.as_str()) else {
        return Err(NoMemory);
    };
    Ok(made)
}

// The stash without a label's block, and its put.
fn prepare_removal(account: &str, stash: &Stash, label: &Text) -> Result<(Stash, Write), NoMemory>
    requires plain { IsTrue (is_account_name account.now) }
    requires loses { LosesFactor label.now stash.now }
    ensures stash { IfOk result (λ made. made.0 ≡ without_block stash.now label.now) }
    ensures put { IfOk result (λ made. IsStashWrite account.now (without_block stash.now label.now) made.1) }
{
    let made = without(stash, label)?;
    let put = stash_write(account, &made)?;
    Ok((made, put))
}

/// The removals of a PIN's leaf and of its record.
pub(crate) fn removals_of(
    account: &str,
    rows: &NameMap<FactorRecord>,
    label: &Text,
) -> (Write, Write)
    requires plain { IsTrue (is_account_name account.now) }
    requires label { IsTrue (is_factor_label label.now) }
    requires known { IsSomeAnd (get rows.now label.now) (λ row. IsSome row.leaf) }
    ensures leaf { (row : RowSeen) (tree : ℕ) → get rows.now label.now ≡ Some row → row.leaf ≡ Some tree
        → result.0 ≡ Write.RemoveLeaf tree }
    ensures record { (row : RowSeen) → get rows.now label.now ≡ Some row
        → result.1 ≡ Write.Remove (factor_name account.now label.now row.edition) }
{
    let Some(row) = rows.get(label) else {
        unreachable!()
    };
    let Some(tree) = row.leaf else { unreachable!() };
    let name = RecordName::factor(account, label.as_str(), row.edition);
    (Write::RemoveLeaf(tree), Write::Remove(name))
}

// Removes a PIN where the tree isn't lost.
fn remove_held<S: Share>(
    stored: &mut Stored,
    share: &mut S,
    account: &str,
    label: &Text,
    moment: u64,
) -> Result<(), StoreFault>
    requires plain { IsTrue (is_account_name account.now) }
    requires own { IsOf (S.seen share.old).owner account.now }
    requires spare { 3 ≤ (S.seen share.old).spare }
    requires moment { moment < 2 ^ 40 }
    requires tree { (S.seen share.old).lost ≡ None }
    requires home { IsSomeAnd stored.old.stash (LosesFactor label.now) }
    requires label { IsTrue (is_factor_label label.now) }
    requires known { IsSomeAnd (get stored.old.factors label.now) (λ row. IsSome row.leaf) }
    ensures edits { Edits (S.seen share.old) (S.seen share.new) account.now stored.old stored.new
        (IsOk result) (IsErrOf result StoreFault.Failed) (RemovesFactor label.now) }
    ensures cost { (cost : ℕ) → PutsCost (S.seen share.old) (S.seen share.new) account.now cost }
    ensures lost { stored.new.lost ≡ stored.old.lost }
    ensures err { OnErr result (stored.new ≡ stored.old) }
    ensures short { IsShort stored.old → IsShort stored.new }
    ensures coherent { IsCoherent account.now stored.old → IsCoherent account.now stored.new }
    ensures only { IfErr result IsEditFault }
    ensures calm { IsErrOf result StoreFault.NoMemory → S.seen share.new ≡ S.seen share.old }
    ensures goes { S.goes share.old share.new }
{
    let Some(stash) = &stored.stash else {
        unreachable!()
    };
    let (leaf, record) = removals_of(account, &stored.factors, label);
    let (stash, put) = prepare_removal(account, stash, label)?;
    change_three(share, put, leaf, record, moment)?;
    stored.stash = Some(stash);
    stored.factors.remove(label);
    Ok(())
}

/// Removes a PIN. The steps are the put of the stash without its block, which is the commit point, and the removals
/// of its leaf and of its record.
///
/// `moment` is in seconds. The faults are `TreeLost` exactly where the tree is lost and `NoMemory`, both with no step
/// made, and `Failed`, also after the commit point. After a fault `stored` is as it was.
pub fn remove_pin<S: Share>(
    stored: &mut Stored,
    share: &mut S,
    account: &str,
    label: &Text,
    moment: u64,
) -> Result<(), StoreFault>
    requires plain { IsTrue (is_account_name account.now) }
    requires own { IsOf (S.seen share.old).owner account.now }
    requires spare { 3 ≤ (S.seen share.old).spare }
    requires moment { moment < 2 ^ 40 }
    requires lost { is_some (S.seen share.old).lost ≡ is_some stored.old.lost }
    requires home { IsSomeAnd stored.old.stash (LosesFactor label.now) }
    requires label { IsTrue (is_factor_label label.now) }
    requires known { IsSomeAnd (get stored.old.factors label.now) (λ row. IsSome row.leaf) }
    ensures edits { Edits (S.seen share.old) (S.seen share.new) account.now stored.old stored.new
        (IsOk result) (IsErrOf result StoreFault.Failed) (RemovesFactor label.now) }
    ensures cost { (cost : ℕ) → PutsCost (S.seen share.old) (S.seen share.new) account.now cost }
    ensures lost { stored.new.lost ≡ stored.old.lost }
    ensures err { OnErr result (stored.new ≡ stored.old) }
    ensures short { IsShort stored.old → IsShort stored.new }
    ensures coherent { IsCoherent account.now stored.old → IsCoherent account.now stored.new }
    ensures only { IfErr result IsPinFault }
    ensures tree { TellsLost stored.old.lost result }
    ensures still { IsSome stored.old.lost → S.seen share.new ≡ S.seen share.old }
    ensures calm { IsErrOf result StoreFault.NoMemory → S.seen share.new ≡ S.seen share.old }
    ensures goes { S.goes share.old share.new }
{
    in_step(stored)?;
    remove_held(stored, share, account, label, moment)
}
