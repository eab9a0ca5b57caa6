//! New PINs, and the stash with one, made before the first device step.

ghost use Rattle.std.specs.Prelude.{◌≡◌, ◌<◌, ◌-◌, ◌^◌, ◌≤◌, IsTrue, IfOk, IfErr, Ok, None};
ghost use Rattle.std.specs.FinMap.{get, len};
ghost use Rattle.record_names.specs.Names.{is_account_name, is_factor_label};
ghost use Rattle.secret_stash.specs.Keys.{opened_payload};
ghost use Rattle.stored_home.specs.Changes.{stash_with};
ghost use Rattle.home_edits.specs.Passwords.{TakesFactor};
ghost use Rattle.pin_edits.specs.Faults.{IsStashFault};
ghost use Rattle.pin_edits.specs.Pins.{pin_leaf, pin_block, with_reset, AddsReset, IsPinStash};

use crate::resetting::opened_of;
use ct_bytes::{NoMemory, Text};
use home_edits::{Ivs, wrap_of};
use pw_path::Hash;
use pw_types::Schedule;
use record_names::RecordName;
use secret_stash::{Payload, Reset, Stash, pin_wrap};
use share_api::NewLeaf;
use stored_home::{Derived, StoreFault};

/// What a new PIN is made of.
#[derive(Clone, Copy, Debug)]
pub struct NewPin {
    /// What is derived of its secret. The first half is its low-entropy secret.
    pub derived: Derived,
    /// The delay schedule.
    pub schedule: Schedule,
    /// The high-entropy secret, which a right try releases.
    pub high: Hash,
    /// The reset secret, which sets the count of wrong tries back.
    pub reset: Hash,
}

/// The leaf of a new PIN.
pub(crate) fn leaf_of_pin(pin: &NewPin) -> NewLeaf
    ensures value { result ≡ pin_leaf pin.now }
{
    NewLeaf {
        les: wrap_of(&pin.derived.key),
        hes: pin.high,
        reset: pin.reset,
        schedule: pin.schedule,
    }
}

// The stash with a PIN's block, under the next edition but one.
fn with_block(
    stash: &Stash,
    label: &Text,
    pin: &NewPin,
    main: &[u8; 32],
    iv: [u8; 12],
) -> Result<Stash, NoMemory>
    requires below { stash.now.next < 2 ^ 64 - 1 }
    requires room { get stash.now.blocks label.now ≡ None → len stash.now.blocks < 32 }
    requires label { IsTrue (is_factor_label label.now) }
    ensures value { IfOk result (λ made. made
        ≡ stash_with stash.now stash.now.payload label.now (pin_block stash.now label.now pin.now main.now iv)) }
{
    let edition = stash.next();
    let Ok(mut made) = stash.copy() else {
        return Err(NoMemory);
    };
    made.set_next(edition + 1);
    let wrap = pin_wrap(&pin.high, &pin.derived.key);
    let Ok(()) = made.add_block(label.as_str(), edition, &wrap, main, iv) else {
        return Err(NoMemory);
    };
    Ok(made)
}

// The payload with a PIN's reset secret.
fn with_secret(
    payload: Payload,
    label: &Text,
    edition: u64,
    secret: Hash,
) -> Result<Payload, NoMemory>
    ensures vault { IfOk result (λ made. made.vault ≡ payload.vault) }
    ensures resets { IfOk result (λ made. made.resets ≡ with_reset payload.resets label.now edition secret) }
{
    let Payload { vault, mut resets } = payload;
    let name = label.copy()?;
    resets.insert(name, Reset { edition, secret })?;
    Ok(Payload { vault, resets })
}

// The payload of a stash with the reset secret of a PIN of the next edition.
fn pin_payload(
    account: &str,
    stash: &Stash,
    label: &Text,
    secret: Hash,
    main: &[u8; 32],
) -> Result<Payload, StoreFault>
    requires plain { IsTrue (is_account_name account.now) }
    requires takes { TakesFactor label.now stash.now }
    ensures value { IfOk result (AddsReset stash.now main.now label.now secret) }
    ensures only { IfErr result (IsStashFault account.now) }
{
    let payload = opened_of(account, stash, main)?;
    let payload = with_secret(payload, label, stash.next(), secret)?;
    if payload.resets.len() > 16 {
        return Err(StoreFault::Damaged(RecordName::stash(account)));
    }
    Ok(payload)
}

/// The stash with a PIN's block, and its payload sealed anew with the PIN's reset secret.
pub(crate) fn pin_stash(
    account: &str,
    stash: &Stash,
    label: &Text,
    pin: &NewPin,
    main: &[u8; 32],
    ivs: &Ivs,
) -> Result<Stash, StoreFault>
    requires plain { IsTrue (is_account_name account.now) }
    requires label { IsTrue (is_factor_label label.now) }
    requires takes { TakesFactor label.now stash.now }
    ensures value { IfOk result (IsPinStash stash.now label.now pin.now main.now ivs.now.block) }
    ensures only { IfErr result (IsStashFault account.now) }
{
    let payload = pin_payload(account, stash, label, pin.reset, main)?;
    let mut made = with_block(stash, label, pin, main, ivs.block)?;
    match made.set_payload(main, &payload, ivs.payload) {
        Ok(()) => Ok(made),
        Err(_) => Err(StoreFault::NoMemory),
    }
}
