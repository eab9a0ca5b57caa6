//! Removals of what a loaded state doesn't name.

ghost use Rattle.std.specs.Prelude.{◌≡◌, ◌≢◌, ◌↔◌, ◌⊎◌, ◌≤◌, ◌<◌, ◌^◌, ℕ, List, [], ◌∷◌, Some, None, false, is_some, length, IsTrue, IsOk, IsErr, IsErrOf};
ghost use Rattle.std.specs.List.{list_any};
ghost use Rattle.std.specs.FinMap.{get, entries};
ghost use Rattle.factor_files.specs.declared.factor.FactorRecord.{FactorRecord as RowSeen};
ghost use Rattle.record_names.specs.Names.{IsRecordName, is_account_name, account_of, stash_name, factor_name, leaf_name};
ghost use Rattle.stored_home.specs.Coherent.{IsCoherent};
ghost use Rattle.stored_home.specs.declared.fault.StoreFault.{StoreFault};
ghost use Rattle.home_recovery.specs.Home.{Row, is_one_leaf};
ghost use Rattle.home_recovery.specs.Loose.{IsLoose};
ghost use Rattle.home_recovery.specs.Parts.{Serves};
ghost use Rattle.home_recovery.specs.Sweeps.{IsRowName, Stays, Sweeps};
ghost use Rattle.home_recovery.specs.Told.{lost_tree};

use crate::bounds::has_factors;
use crate::files::is_file_record;
use crate::read::told;
use ct_bytes::Text;
use factor_files::FactorRecord;
use pw_path::Label;
use share_api::{RecordName, Share};
use stored_home::{StoreFault, Stored};

// Whether a factor's record has this name.
fn names_row(account: &str, stored: &Stored, name: &RecordName) -> bool
    requires plain { IsTrue (is_account_name account.now) }
    requires coherent { IsCoherent account.now stored.now }
    ensures named { IsTrue result → IsRowName account.now stored.now name.now }
    ensures none { result ≡ false → (label : List ℕ) (row : RowSeen) → get stored.now.factors label ≡ Some row
        → factor_name account.now label row.edition ≢ name.now }
{
    for row in stored.factors.rows() {
        if RecordName::factor(account, row.0.as_str(), row.1.edition) == *name {
            return true;
        }
    }
    false
}

// Whether the row names the leaf.
fn is_leaf_of(row: &(Text, FactorRecord), label: Label) -> bool
    ensures { result ≡ is_one_leaf row.now.1.leaf (Some label) }
{
    match row.1.leaf {
        Some(leaf) => leaf == label,
        None => false,
    }
}

// Whether a factor's record names the leaf.
fn names_leaf(stored: &Stored, label: Label) -> bool
    ensures { result ≡ list_any (λ (row : Row). is_one_leaf row.1.leaf (Some label)) (entries stored.now.factors) }
{
    stored
        .factors
        .rows()
        .iter()
        .any(|row| is_leaf_of(row, label))
}

// Whether a record of the account stays.
fn stays(account: &str, stored: &Stored, name: &RecordName) -> bool
    requires plain { IsTrue (is_account_name account.now) }
    requires coherent { IsCoherent account.now stored.now }
    requires own { account_of name.now ≡ account.now }
    ensures named { IsTrue result → Stays account.now stored.now name.now }
    ensures loose { result ≡ false → IsLoose account.now stored.now name.now }
{
    if *name == RecordName::stash(account) {
        return true;
    }
    if has_factors(stored) && is_file_record(account, name) {
        return true;
    }
    names_row(account, stored, name)
}

// Removes a record of the account that doesn't stay. The name is no leaf's.
fn remove_record<S: Share>(
    account: &str,
    share: &mut S,
    stored: &Stored,
    name: &RecordName,
) -> Result<(), StoreFault>
    requires spare { 1 ≤ (S.seen share.old).spare }
    requires serves { Serves account.now (S.seen share.old) }
    requires coherent { IsCoherent account.now stored.now }
    requires is { IsRecordName name.now }
    requires other { (one : List ℕ) (label : ℕ) → IsTrue (is_account_name one) → label < 16384
        → name.now ≡ leaf_name one label → ⊥ }
    ensures sweeps { Sweeps (is_some (S.seen share.old).lost) account.now stored.now (name.now ∷ [])
        (S.seen share.old) (S.seen share.new) (IsOk result) (IsErrOf result StoreFault.Failed) }
    ensures only { IsErr result → IsErrOf result StoreFault.Failed }
    ensures goes { S.goes share.old share.new }
{
    if name.account() != account || stays(account, stored, name) {
        return Ok(());
    }
    told(share.remove(name))
}

// Removes a leaf that no factor's record names, unless the tree is lost.
fn remove_leaf<S: Share>(
    account: &str,
    share: &mut S,
    stored: &Stored,
    name: &RecordName,
    label: Label,
    moment: u64,
) -> Result<(), StoreFault>
    requires spare { 1 ≤ (S.seen share.old).spare }
    requires moment { moment < 2 ^ 40 }
    requires plain { IsTrue (is_account_name account.now) }
    requires lost { stored.now.lost ≡ lost_tree (S.seen share.old).lost }
    requires is { IsRecordName name.now }
    requires named { name.now ≡ leaf_name (account_of name.now) label }
    ensures sweeps { Sweeps (is_some (S.seen share.old).lost) account.now stored.now (name.now ∷ [])
        (S.seen share.old) (S.seen share.new) (IsOk result) (IsErrOf result StoreFault.Failed) }
    ensures only { IsErr result → IsErrOf result StoreFault.Failed }
    ensures goes { S.goes share.old share.new }
{
    if stored.lost.is_some() || names_leaf(stored, label) {
        return Ok(());
    }
    told(share.remove_leaf(label, moment))
}

// Removes what a listed name stands for, where it may go.
fn remove_listed<S: Share>(
    account: &str,
    share: &mut S,
    stored: &Stored,
    name: &RecordName,
    moment: u64,
) -> Result<(), StoreFault>
    requires spare { 1 ≤ (S.seen share.old).spare }
    requires moment { moment < 2 ^ 40 }
    requires serves { Serves account.now (S.seen share.old) }
    requires coherent { IsCoherent account.now stored.now }
    requires lost { stored.now.lost ≡ lost_tree (S.seen share.old).lost }
    ensures sweeps { Sweeps (is_some (S.seen share.old).lost) account.now stored.now (name.now ∷ [])
        (S.seen share.old) (S.seen share.new) (IsOk result) (IsErrOf result StoreFault.Failed) }
    ensures only { IsErr result → IsErrOf result StoreFault.Failed }
    ensures goes { S.goes share.old share.new }
{
    // its text shows that it is the name of a record
    let _text = name.as_str();
    match name.leaf_label() {
        Some(label) => remove_leaf(account, share, stored, name, label, moment),
        None => remove_record(account, share, stored, name),
    }
}

/// Removes each listed record of the account and each listed leaf that the loaded state doesn't name.
pub(crate) fn remove_unnamed<S: Share>(
    account: &str,
    share: &mut S,
    stored: &Stored,
    listed: &[RecordName],
    moment: u64,
) -> Result<(), StoreFault>
    requires spare { length listed.now ≤ (S.seen share.old).spare }
    requires moment { moment < 2 ^ 40 }
    requires serves { Serves account.now (S.seen share.old) }
    requires coherent { IsCoherent account.now stored.now }
    requires lost { stored.now.lost ≡ lost_tree (S.seen share.old).lost }
    ensures sweeps { Sweeps (is_some (S.seen share.old).lost) account.now stored.now listed.now
        (S.seen share.old) (S.seen share.new) (IsOk result) (IsErrOf result StoreFault.Failed) }
    ensures only { IsErr result → IsErrOf result StoreFault.Failed }
    ensures goes { S.goes share.old share.new }
{
    for name in listed {
        remove_listed(account, share, stored, name, moment)?;
    }
    Ok(())
}
