//! The first password of a home.

ghost use Rattle.std.specs.Prelude.{◌≡◌, ◌≤◌, IsTrue, IsOk, IsErrOf, IfOk, IfErr, OnErr, IsSomeAnd};
ghost use Rattle.std.specs.FinMap.{len};
ghost use Rattle.record_names.specs.Names.{is_account_name, is_factor_label};
ghost use Rattle.share_api.specs.Conditions.{IsOf};
ghost use Rattle.stored_home.specs.Coherent.{IsCoherent};
ghost use Rattle.stored_home.specs.Sizes.{IsShort};
ghost use Rattle.home_edits.specs.Costs.{PutsCost};
ghost use Rattle.home_edits.specs.Edits.{Edits, IsEditFault};
ghost use Rattle.home_edits.specs.FirstPasswords.{TakesFirst, IsFirstStash, SetsFirstPassword};
ghost use Rattle.home_edits.specs.Passwords.{password_row, AreFactorPuts};

use crate::factor_puts::{FactorPuts, factor_puts};
use crate::passwords::{commit, new_row, with_block};
use ct_bytes::{NoMemory, Text};
use factor_files::FactorRecord;
use name_map::NameMap;
use secret_stash::{Payload, Stash};
use share_api::Share;
use std::alloc::Global;
use stored_home::{Derived, StoreFault, Stored};

/// The keys of a home.
#[derive(Clone, Copy, Debug)]
pub struct HomeKeys {
    /// The main key, which each factor's block wraps.
    pub main: [u8; 32],
    /// The vault key, which the payload holds.
    pub vault: [u8; 32],
}

/// The IVs of a block and of a payload. Each is used once under its key.
#[derive(Clone, Copy, Debug)]
pub struct Ivs {
    pub block: [u8; 12],
    pub payload: [u8; 12],
}

// The stash with a first block, and a payload with the vault key.
fn first_stash(
    alloc: Global,
    stash: &Stash,
    label: &Text,
    derived: &Derived,
    keys: &HomeKeys,
    ivs: &Ivs,
) -> Result<Stash, NoMemory>
    requires takes { TakesFirst label.now stash.now }
    requires label { IsTrue (is_factor_label label.now) }
    ensures value { IfOk result (λ made. IsFirstStash stash.now label.now derived.now
        keys.now.main keys.now.vault ivs.now.block made) }
{
    let mut made = with_block(stash, label, derived, &keys.main, ivs.block)?;
    let payload = Payload {
        vault: keys.vault,
        resets: NameMap::new(alloc),
    };
    match made.set_payload(&keys.main, &payload, ivs.payload) {
        Ok(()) => Ok(made),
        Err(_) => Err(NoMemory),
    }
}

// The records and the loaded state of the edit that sets a first password.
fn prepare_first(
    alloc: Global,
    account: &str,
    rows: &NameMap<FactorRecord>,
    stash: &Stash,
    label: &Text,
    derived: &Derived,
    keys: &HomeKeys,
    ivs: &Ivs,
) -> Result<FactorPuts, NoMemory>
    requires plain { IsTrue (is_account_name account.now) }
    requires label { IsTrue (is_factor_label label.now) }
    requires takes { TakesFirst label.now stash.now }
    requires least { 1 ≤ derived.now.cost }
    requires most { derived.now.cost ≤ 16 }
    ensures first { IfOk result (λ puts. IsFirstStash stash.now label.now derived.now
        keys.now.main keys.now.vault ivs.now.block puts.stash) }
    ensures value { IfOk result (λ puts. AreFactorPuts account.now rows.now puts.stash
        (password_row label.now stash.now.next derived.now) puts) }
    ensures from { 1 ≤ stash.now.next }
{
    let row = new_row(label, stash.next(), derived)?;
    let made = first_stash(alloc, stash, label, derived, keys, ivs)?;
    factor_puts(alloc, account, rows, made, row)
}

/// Adds the first password to a home without factors, and with it the home's keys and payload. The steps are the
/// put of the password's record and the put of the stash, which is the commit point.
///
/// `derived` is derived of the secret. No two keys or payloads may be sealed under one key and IV. The faults are
/// `NoMemory`, with no step made, and `Failed`. After a fault `stored` is as it was.
pub fn add_first_password<S: Share>(
    alloc: Global,
    stored: &mut Stored,
    share: &mut S,
    account: &str,
    label: &Text,
    derived: &Derived,
    keys: &HomeKeys,
    ivs: &Ivs,
) -> Result<(), StoreFault>
    requires plain { IsTrue (is_account_name account.now) }
    requires own { IsOf (S.seen share.old).owner account.now }
    requires spare { 2 ≤ (S.seen share.old).spare }
    requires home { IsSomeAnd stored.old.stash (TakesFirst label.now) }
    requires label { IsTrue (is_factor_label label.now) }
    requires least { 1 ≤ derived.now.cost }
    requires most { derived.now.cost ≤ 16 }
    ensures edits { Edits (S.seen share.old) (S.seen share.new) account.now stored.old stored.new
        (IsOk result) (IsErrOf result StoreFault.Failed)
        (SetsFirstPassword label.now derived.now keys.now.main keys.now.vault) }
    ensures cost { PutsCost (S.seen share.old) (S.seen share.new) account.now derived.now.cost }
    ensures lost { stored.new.lost ≡ stored.old.lost }
    ensures err { OnErr result (stored.new ≡ stored.old) }
    ensures short { IsShort stored.old → IsShort stored.new }
    ensures coherent { len stored.old.files ≤ 256 → IsCoherent account.now stored.old
        → IsCoherent account.now stored.new }
    ensures only { IfErr result IsEditFault }
    ensures calm { IsErrOf result StoreFault.NoMemory → S.seen share.new ≡ S.seen share.old }
    ensures goes { S.goes share.old share.new }
{
    let Some(stash) = &stored.stash else {
        unreachable!()
    };
    let puts = prepare_first(
        alloc,
        account,
        &stored.factors,
        stash,
        label,
        derived,
        keys,
        ivs,
    )?;
    commit(stored, share, puts)
}
