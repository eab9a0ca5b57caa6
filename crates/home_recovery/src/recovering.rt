//! Recovering: loading, and removing what isn't named.

ghost use Rattle.std.specs.Prelude.{◌≡◌, ◌<◌, ◌^◌, is_some, IfErr, IsTrue};
ghost use Rattle.record_names.specs.Names.{is_account_name};
ghost use Rattle.share_api.specs.Conditions.{IsOf};
ghost use Rattle.stored_home.specs.Coherent.{IsCoherent};
ghost use Rattle.home_recovery.specs.Parts.{Serves};
ghost use Rattle.home_recovery.specs.Recovers.{Recovers};
ghost use Rattle.home_recovery.specs.Sweeps.{Finishes, IsTrimmed};
ghost use Rattle.home_recovery.specs.Told.{lost_tree, IsLoadFault, IsStepFault};

use crate::bounds::has_factors;
use crate::loading::{MOST_READS, load_listed};
use crate::read::list_names;
use crate::removing::remove_unnamed;
use name_map::NameMap;
use share_api::{RecordName, Share};
use std::alloc::Global;
use stored_home::{StoreFault, Stored};

// The loaded state, with vault files only where the home has factors.
fn trimmed(alloc: Global, mut stored: Stored) -> Stored
    ensures { IsTrimmed stored result }
{
    if !has_factors(&stored) {
        stored.files = NameMap::new(alloc);
    }
    stored
}

// The loaded state, once what it doesn't name is removed.
fn finish<S: Share>(
    alloc: Global,
    account: &str,
    share: &mut S,
    loaded: Stored,
    listed: &[RecordName],
    moment: u64,
) -> Result<Stored, StoreFault>
    requires moment { moment < 2 ^ 40 }
    requires serves { Serves account.now (S.seen share.old) }
    requires coherent { IsCoherent account.now loaded }
    requires lost { loaded.lost ≡ lost_tree (S.seen share.old).lost }
    ensures finishes { Finishes (is_some (S.seen share.old).lost) account.now loaded listed.now
        (S.seen share.old) (S.seen share.new) result }
    ensures only { IfErr result IsStepFault }
    ensures goes { S.goes share.old share.new }
{
    let stored = trimmed(alloc, loaded);
    share.stock(alloc, listed.len())?;
    remove_unnamed(account, share, &stored, listed, moment)?;
    Ok(stored)
}

/// Loads what the account keeps in memory of its records, as `load` does, and removes the account's other
/// records and, unless the tree is lost, the leaves that no factor's record names. `account` is in its
/// grammar, and the share is the account's. `moment` is that of the removals of leaves, in seconds.
///
/// A home without factors names no vault files. The faults are those of `load`, and damage is told before
/// anything is removed. After `Failed` some of what isn't named may be left.
pub fn recover<S: Share>(
    alloc: Global,
    account: &str,
    share: &mut S,
    moment: u64,
) -> Result<Stored, StoreFault>
    requires plain { IsTrue (is_account_name account.now) }
    requires own { IsOf (S.seen share.old).owner account.now }
    requires moment { moment < 2 ^ 40 }
    // Of whatever contents the device steps fit.
    ensures recovers { Recovers (S.seen share.old) (S.seen share.new) account.now result }
    ensures only { IfErr result IsLoadFault }
    ensures goes { S.goes share.old share.new }
{
    share.stock(alloc, MOST_READS)?;
    let listed = list_names(alloc, share)?;
    let loaded = load_listed(alloc, account, share, &listed)?;
    finish(alloc, account, share, loaded, &listed, moment)
}
