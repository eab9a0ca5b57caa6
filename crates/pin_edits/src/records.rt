//! The puts of records, made before the first device step.

ghost use Rattle.std.specs.Prelude.{◌≡◌, ◌≤◌, IsTrue, IfOk};
ghost use Rattle.record_names.specs.Names.{is_account_name};
ghost use Rattle.factor_files.specs.Record.{IsFactor};
ghost use Rattle.stash_format.specs.Kept.{HasBoth};
ghost use Rattle.stash_format.specs.Sizes.{payload_size, most_payload};
ghost use Rattle.pin_edits.specs.Writes.{IsStashWrite, IsRowWrite};

use ct_bytes::NoMemory;
use factor_files::FactorRecord;
use record_names::RecordName;
use secret_stash::Stash;
use share_api::Write;
use std::alloc::Global;

/// The put of a stash.
pub(crate) fn stash_write(account: &str, stash: &Stash) -> Result<Write, NoMemory>
    requires plain { IsTrue (is_account_name account.now) }
    requires both { HasBoth stash.now }
    requires short { payload_size stash.now ≤ most_payload }
    ensures value { IfOk result (IsStashWrite account.now stash.now) }
{
    match stash.write() {
        Ok(bytes) => Ok(Write::Put(RecordName::stash(account), bytes)),
        Err(_) => Err(NoMemory),
    }
}

/// The put of a factor's record.
pub(crate) fn row_write(alloc: Global, account: &str, row: &FactorRecord) -> Result<Write, NoMemory>
    requires plain { IsTrue (is_account_name account.now) }
    requires row { IsFactor row.now }
    ensures value { IfOk result (IsRowWrite account.now row.now) }
{
    let name = RecordName::factor(account, row.label.as_str(), row.edition);
    let bytes = row.write(alloc)?;
    Ok(Write::Put(name, bytes))
}
