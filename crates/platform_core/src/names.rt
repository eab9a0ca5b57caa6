//! Lists of names.

ghost use Rattle.std.specs.Prelude.{◌↔◌, IsTrue, IfOk, OnOk, IsPermutation, IsSorted};
ghost use Rattle.std.specs.Ordering.{nat_cmp};
ghost use Rattle.std.specs.Cmp.Lexicographic.{slice_cmp};
ghost use Rattle.platform_core.specs.Records.{IsRecordOf};
ghost use Rattle.platform_core.specs.Picks.{Picked, Adds};

use ct_bytes::NoMemory;
use record_names::RecordName;
use std::alloc::Global;

// Whether it is the name of a record of the account, and not a leaf's.
fn is_own(name: &RecordName, account: &str) -> bool
    ensures { IsTrue result ↔ IsRecordOf account.now name.now }
{
    // The text of a name is that of a record.
    let _text = name.as_str();
    name.account() == account && name.leaf_label().is_none()
}

// Adds the name, if it is that of a record of the account, and not a leaf's.
fn add_own(own: &mut Vec<RecordName>, name: &RecordName, account: &str) -> Result<(), NoMemory>
    ensures { OnOk result (Adds (IsRecordOf account.now) name.now own.old.items own.new.items) }
{
    if !is_own(name, account) {
        return Ok(());
    }
    own.push(*name)?;
    Ok(())
}

/// The names of the account's records, without those of leaves.
pub fn own_names(
    alloc: Global,
    names: &[RecordName],
    account: &str,
) -> Result<Vec<RecordName>, NoMemory>
    ensures { IfOk result (λ own. Picked (IsRecordOf account.now) names.now own.items) }
{
    let mut own = Vec::new(alloc);
    for name in names {
        add_own(&mut own, name, account)?;
    }
    Ok(own)
}

/// The names in rising order of their bytes.
pub fn sorted(names: Vec<RecordName>) -> Result<Vec<RecordName>, NoMemory>
    ensures permutation { IfOk result (λ sorted. IsPermutation names.items sorted.items) }
    ensures rising { IfOk result (λ sorted. IsSorted (slice_cmp nat_cmp) sorted.items) }
{
    let mut names = names;
    names.sort()?;
    Ok(names)
}
