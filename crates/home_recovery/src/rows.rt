//! The factor records that a stash names.

ghost use Rattle.std.specs.Prelude.{◌≡◌, ◌≤◌, false, None, Some, is_some, IsOk, IsErrOf, IfOk, IfErr, IsTrue, option_and_then};
ghost use Rattle.factor_files.specs.Record.{factor_at, IsFactor};
ghost use Rattle.record_names.specs.Names.{is_account_name, is_factor_label};
ghost use Rattle.stash_format.specs.Kept.{HasRows};
ghost use Rattle.stored_home.specs.declared.fault.StoreFault.{StoreFault};
ghost use Rattle.home_recovery.specs.Parts.{AreFitting, FitsRow, ReadsRow, TellsRow, TellsItsLeaf, TellsFactor, TellsRows, Serves};
ghost use Rattle.home_recovery.specs.Reading.{Reads};
ghost use Rattle.home_recovery.specs.Told.{IsLoadFault};

use crate::read::{find_bytes, has_leaf};
use ct_bytes::{Blob, Text};
use factor_files::{FactorFault, FactorRecord};
use name_map::NameMap;
use secret_stash::Stash;
use share_api::{RecordName, Share};
use std::alloc::Global;
use stored_home::StoreFault;

// The record, where it is that of the label and the edition.
fn own_row(
    name: &RecordName,
    label: &str,
    edition: u64,
    row: FactorRecord,
) -> Result<FactorRecord, StoreFault>
    ensures own { IfOk result (λ own. (own ≡ row) × FitsRow label.now edition row) }
    ensures other { IfErr result (λ fault. (fault ≡ StoreFault.Damaged name.now) × (FitsRow label.now edition row → ⊥)) }
{
    if row.label.as_str() == label && row.edition == edition {
        Ok(row)
    } else {
        Err(StoreFault::Damaged(*name))
    }
}

// The factor record of these bytes.
fn parse_row(
    alloc: Global,
    name: &RecordName,
    found: Option<Blob>,
    label: &str,
    edition: u64,
) -> Result<FactorRecord, StoreFault>
    ensures reads { ReadsRow name.now found label.now edition result }
    ensures plain { IfOk result IsFactor }
{
    let Some(bytes) = found else {
        return Err(StoreFault::Damaged(*name));
    };
    match FactorRecord::read(alloc, bytes.as_slice()) {
        Ok(row) => own_row(name, label, edition, row),
        Err(FactorFault::NoMemory) => Err(StoreFault::NoMemory),
        Err(FactorFault::BadRecord(_)) => Err(StoreFault::Damaged(*name)),
    }
}

// The factor record of a label and an edition.
fn read_row<S: Share>(
    alloc: Global,
    account: &str,
    share: &mut S,
    label: &str,
    edition: u64,
) -> Result<FactorRecord, StoreFault>
    requires spare { 1 ≤ (S.seen share.old).spare }
    requires serves { Serves account.now (S.seen share.old) }
    requires label { IsTrue (is_factor_label label.now) }
    ensures read { Reads (S.seen share.old) (S.seen share.new) (IsOk result) (IsErrOf result StoreFault.Failed) 1
        (TellsRow account.now label.now edition result) }
    ensures fits { IfOk result (λ row. IsFactor row × FitsRow label.now edition row) }
    ensures only { IfErr result IsLoadFault }
    ensures goes { S.goes share.old share.new }
{
    let name = RecordName::factor(account, label, edition);
    let found = find_bytes(alloc, share, &name)?;
    parse_row(alloc, &name, found, label, edition)
}

// Looks for the leaf that a factor record names, unless the tree is lost.
fn check_leaf<S: Share>(
    account: &str,
    share: &mut S,
    lost: bool,
    row: &FactorRecord,
) -> Result<(), StoreFault>
    requires spare { 1 ≤ (S.seen share.old).spare }
    requires serves { Serves account.now (S.seen share.old) }
    requires lost { lost ≡ is_some (S.seen share.old).lost }
    ensures read { Reads (S.seen share.old) (S.seen share.new) (IsOk result) (IsErrOf result StoreFault.Failed) 1
        (TellsItsLeaf account.now lost row.now result) }
    ensures only { IfErr result IsLoadFault }
    ensures goes { S.goes share.old share.new }
{
    let Some(label) = row.leaf else {
        return Ok(());
    };
    if lost {
        return Ok(());
    }
    if has_leaf(share, label)? {
        Ok(())
    } else {
        Err(StoreFault::Damaged(RecordName::leaf(account, label)))
    }
}

// The factor record of a label and an edition, whose leaf is there unless the tree is lost.
fn read_factor<S: Share>(
    alloc: Global,
    account: &str,
    share: &mut S,
    lost: bool,
    label: &str,
    edition: u64,
) -> Result<FactorRecord, StoreFault>
    requires spare { 2 ≤ (S.seen share.old).spare }
    requires serves { Serves account.now (S.seen share.old) }
    requires lost { lost ≡ is_some (S.seen share.old).lost }
    requires label { IsTrue (is_factor_label label.now) }
    ensures read { Reads (S.seen share.old) (S.seen share.new) (IsOk result) (IsErrOf result StoreFault.Failed) 2
        (TellsFactor account.now lost label.now edition result) }
    ensures fits { IfOk result (λ row. IsFactor row × FitsRow label.now edition row) }
    ensures only { IfErr result IsLoadFault }
    ensures goes { S.goes share.old share.new }
{
    let row = read_row(alloc, account, share, label, edition)?;
    check_leaf(account, share, lost, &row)?;
    Ok(row)
}

/// The factor records that the stash's blocks name by label and edition, by label.
pub(crate) fn read_rows<S: Share>(
    alloc: Global,
    account: &str,
    share: &mut S,
    lost: bool,
    stash: &Stash,
) -> Result<NameMap<FactorRecord>, StoreFault>
    requires spare { 64 ≤ (S.seen share.old).spare }
    requires serves { Serves account.now (S.seen share.old) }
    requires lost { lost ≡ is_some (S.seen share.old).lost }
    requires rows { HasRows stash.now.next stash.now.blocks }
    ensures read { Reads (S.seen share.old) (S.seen share.new) (IsOk result) (IsErrOf result StoreFault.Failed) 64
        (TellsRows account.now lost stash.now result) }
    ensures fits { IfOk result (AreFitting (Some stash.now)) }
    ensures only { IfErr result IsLoadFault }
    ensures goes { S.goes share.old share.new }
{
    let mut rows = NameMap::new(alloc);
    'blocks: for at in 0..stash.count() {
        let (label, edition) = stash.block(at);
        let row = read_factor(alloc, account, share, lost, label, edition)?;
        rows.insert(Text::from_str(alloc, label)?, row)?;
    }
    Ok(rows)
}
