//! What the edit of a factor has made before its first device step.

ghost use Rattle.std.specs.Prelude.{◌≡◌, ◌≤◌, ◌<◌, ◌^◌, length, IsTrue, IfOk, take};
ghost use Rattle.std.specs.FinMap.{insert};
ghost use Rattle.record_names.specs.Names.{is_account_name};
ghost use Rattle.factor_files.specs.Record.{IsFactor};
ghost use Rattle.stash_format.specs.Kept.{HasBoth};
ghost use Rattle.stash_format.specs.Sizes.{payload_size, most_payload};
ghost use Rattle.home_edits.specs.Puts.{IsRowPut};
ghost use Rattle.home_edits.specs.Passwords.{AreFactorPuts};

use crate::record_put::{RecordPut, stash_put};
use ct_bytes::NoMemory;
use factor_files::FactorRecord;
use name_map::{Copied, NameMap};
use record_names::RecordName;
use secret_stash::Stash;
use std::alloc::Global;

/// The loaded stash and factors after an edit, and the records that it puts.
#[derive(Debug, Drop)]
pub(crate) struct FactorPuts {
    pub stash: Stash,
    pub factors: NameMap<FactorRecord>,
    pub row_put: RecordPut,
    pub stash_put: RecordPut,
}

/// A factor's record.
pub(crate) fn row_put(
    alloc: Global,
    account: &str,
    row: &FactorRecord,
) -> Result<RecordPut, NoMemory>
    requires plain { IsTrue (is_account_name account.now) }
    requires row { IsFactor row.now }
    ensures value { IfOk result (λ put. IsRowPut account.now row.now put) }
{
    let name = RecordName::factor(account, row.label.as_str(), row.edition);
    let bytes = row.write(alloc)?;
    Ok(RecordPut { name, bytes })
}

// The factors with this one.
fn with_row(
    rows: &NameMap<FactorRecord>,
    row: FactorRecord,
) -> Result<NameMap<FactorRecord>, NoMemory>
    ensures value { IfOk result (λ made. made ≡ insert rows.now row.label row) }
{
    let label = row.label.copy()?;
    let mut made = rows.copy()?;
    made.insert(label, row)?;
    Ok(made)
}

/// The records of a factor and of the stash with its block.
pub(crate) fn factor_puts(
    alloc: Global,
    account: &str,
    rows: &NameMap<FactorRecord>,
    stash: Stash,
    row: FactorRecord,
) -> Result<FactorPuts, NoMemory>
    requires plain { IsTrue (is_account_name account.now) }
    requires row { IsFactor row }
    requires both { HasBoth stash }
    requires short { payload_size stash ≤ most_payload }
    ensures value { IfOk result (λ puts. AreFactorPuts account.now rows.now stash row puts) }
{
    let row_put = row_put(alloc, account, &row)?;
    let stash_put = stash_put(account, &stash)?;
    let factors = with_row(rows, row)?;
    Ok(FactorPuts {
        stash,
        factors,
        row_put,
        stash_put,
    })
}
