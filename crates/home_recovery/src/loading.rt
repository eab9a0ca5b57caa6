//! Loading.

ghost use Rattle.std.specs.Prelude.{◌≡◌, ◌≤◌, ◌+◌, None, Some, is_some, IsOk, IsErrOf, IfOk, IfErr, IfSome, IsTrue};
ghost use Rattle.record_names.specs.Names.{is_account_name};
ghost use Rattle.share_api.specs.Conditions.{IsOf};
ghost use Rattle.stash_format.specs.Kept.{HasRows, HasBoth};
ghost use Rattle.stored_home.specs.declared.fault.StoreFault.{StoreFault};
ghost use Rattle.stored_home.specs.Coherent.{IsOwnStash, IsCoherent};
ghost use Rattle.home_recovery.specs.Home.{TellsFactors, TellsHome, TellsListed};
ghost use Rattle.home_recovery.specs.Loads.{Loads};
ghost use Rattle.home_recovery.specs.Parts.{Serves, AreFitting};
ghost use Rattle.home_recovery.specs.Reading.{Reads};
ghost use Rattle.home_recovery.specs.Told.{lost_tree, IsLoadFault};

use crate::bounds::checked;
use crate::files::list_files;
use crate::read::{find_loss, list_names};
use crate::rows::read_rows;
use crate::stash::read_stash;
use factor_files::FactorRecord;
use name_map::NameMap;
use secret_stash::Stash;
use share_api::{RecordName, Share};
use std::alloc::Global;
use stored_home::{Kept, StoreFault, Stored};

/// The most steps of loading: the names, the stash, a look for a lost tree, and for each of 32 blocks its
/// record and its leaf.
pub(crate) const MOST_READS: usize = 67;

// The factor records that the stash names, where there is one.
fn read_factors<S: Share>(
    alloc: Global,
    account: &str,
    share: &mut S,
    lost: bool,
    stash: &Option<Stash>,
) -> Result<NameMap<FactorRecord>, StoreFault>
    requires spare { 64 ≤ (S.seen share.old).spare }
    requires serves { Serves account.now (S.seen share.old) }
    requires lost { lost ≡ is_some (S.seen share.old).lost }
    requires rows { IfSome stash.now (λ s. HasRows s.next s.blocks) }
    ensures read { Reads (S.seen share.old) (S.seen share.new) (IsOk result) (IsErrOf result StoreFault.Failed) 64
        (TellsFactors account.now lost stash.now result) }
    ensures fits { IfOk result (AreFitting stash.now) }
    ensures only { IfErr result IsLoadFault }
    ensures goes { S.goes share.old share.new }
{
    match stash {
        Some(stash) => read_rows(alloc, account, share, lost, stash),
        None => Ok(NameMap::new(alloc)),
    }
}

// The stash and its factors' records, beside these vault files.
fn read_home<S: Share>(
    alloc: Global,
    account: &str,
    share: &mut S,
    files: NameMap<Kept>,
) -> Result<Stored, StoreFault>
    requires spare { 66 ≤ (S.seen share.old).spare }
    requires serves { Serves account.now (S.seen share.old) }
    ensures read { Reads (S.seen share.old) (S.seen share.new) (IsOk result) (IsErrOf result StoreFault.Failed) 66
        (TellsHome account.now (is_some (S.seen share.old).lost) result) }
    ensures files { IfOk result (λ stored. stored.files ≡ files) }
    ensures own { IfOk result (λ stored. IfSome stored.stash (IsOwnStash account.now)) }
    ensures both { IfOk result (λ stored. IfSome stored.stash HasBoth) }
    ensures fits { IfOk result (λ stored. AreFitting stored.stash stored.factors) }
    ensures lost { IfOk result (λ stored. stored.lost ≡ lost_tree (S.seen share.old).lost) }
    ensures only { IfErr result IsLoadFault }
    ensures goes { S.goes share.old share.new }
{
    let stash = read_stash(alloc, account, share)?;
    let lost = find_loss(share)?;
    let factors = read_factors(alloc, account, share, lost.is_some(), &stash)?;
    Ok(Stored {
        stash,
        factors,
        files,
        lost,
    })
}

/// The loaded state, once names are listed.
pub(crate) fn load_listed<S: Share>(
    alloc: Global,
    account: &str,
    share: &mut S,
    listed: &[RecordName],
) -> Result<Stored, StoreFault>
    requires spare { 66 ≤ (S.seen share.old).spare }
    requires serves { Serves account.now (S.seen share.old) }
    ensures read { Reads (S.seen share.old) (S.seen share.new) (IsOk result) (IsErrOf result StoreFault.Failed) 66
        (TellsListed account.now listed.now (is_some (S.seen share.old).lost) result) }
    ensures coherent { IfOk result (IsCoherent account.now) }
    ensures lost { IfOk result (λ stored. stored.lost ≡ lost_tree (S.seen share.old).lost) }
    ensures only { IfErr result IsLoadFault }
    ensures goes { S.goes share.old share.new }
{
    let files = list_files(alloc, account, listed)?;
    let stored = read_home(alloc, account, share, files)?;
    checked(account, stored)
}

/// Loads what the account keeps in memory of its records. `account` is in its grammar, and the share is
/// the account's. Nothing is changed, and no record is read twice.
///
/// The faults are `Failed` where a device step failed, `Damaged` with the name of a record, and
/// `NoMemory`. A record is damaged where
///
/// - the stash is outside its grammar, names another account, or has a payload longer than 945 bytes,
/// - a block's factor record isn't there, is outside its grammar, or has another label or edition,
/// - unless the tree is lost, the leaf of a PIN isn't there: then the name is the leaf's,
/// - a home with factors has no password, over 8 PINs, two PINs of one leaf, or over 256 vault files:
///   then the name is the stash's.
pub fn load<S: Share>(alloc: Global, account: &str, share: &mut S) -> Result<Stored, StoreFault>
    requires plain { IsTrue (is_account_name account.now) }
    requires own { IsOf (S.seen share.old).owner account.now }
    // Of whatever contents the device steps fit.
    ensures loads { Loads (S.seen share.old) (S.seen share.new) account.now result }
    // Whatever the contents are.
    ensures coherent { IfOk result (IsCoherent account.now) }
    ensures only { IfErr result IsLoadFault }
    ensures goes { S.goes share.old share.new }
{
    share.stock(alloc, MOST_READS)?;
    let listed = list_names(alloc, share)?;
    load_listed(alloc, account, share, &listed)
}
