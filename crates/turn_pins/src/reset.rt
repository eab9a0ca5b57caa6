//! What the reset of a PIN needs, made before any device step.

ghost use Rattle.std.specs.Prelude.{◌≡◌, IsTrue, IsSome, IsSomeAnd, IfOk, IfSome, IfErr, Some, Ok};
ghost use Rattle.std.specs.FinMap.{get};
ghost use Rattle.record_names.specs.Names.{is_account_name, is_factor_label};
ghost use Rattle.secret_stash.specs.Keys.{opened_payload};
ghost use Rattle.stored_home.specs.Loaded.{HasFactors};
ghost use Rattle.pin_edits.specs.Faults.{IsStashFault};
ghost use Rattle.pin_edits.specs.Resets.{IsResetOf};
ghost use Rattle.turn_pins.specs.Resetting.{IsResetMade, IsResetNamed};

use ct_bytes::Text;
use factor_files::FactorRecord;
use pw_path::{Hash, Label};
use record_names::RecordName;
use secret_stash::{Payload, Stash, StashFault};
use stored_home::{StoreFault, Stored};

/// A PIN that is to be set back.
#[derive(Drop)]
pub struct Reset {
    /// The factor's label.
    pub label: Text,
    /// The leaf's label.
    pub tree: Label,
    /// The reset secret.
    pub secret: Hash,
    /// The name of the PIN's record.
    pub name: RecordName,
}

// What a stash's payload holds under the main key. Where it doesn't open the stash is damaged.
fn opened_of(account: &str, stash: &Stash, main: &[u8; 32]) -> Result<Payload, StoreFault>
    requires plain { IsTrue (is_account_name account.now) }
    requires there { IsSome stash.now.payload }
    ensures ok { IfOk result (λ payload. opened_payload stash.now main.now ≡ Ok payload) }
    ensures only { IfErr result (IsStashFault account.now) }
{
    match stash.payload(main) {
        Ok(payload) => Ok(payload),
        Err(StashFault::NoMemory) => Err(StoreFault::NoMemory),
        Err(_) => Err(StoreFault::Damaged(RecordName::stash(account))),
    }
}

// The reset secret of a label and an edition.
fn secret_of(payload: &Payload, label: &Text, edition: u64) -> Option<Hash>
    ensures found { IfSome result (λ secret. get payload.now.resets label.now
        ≡ Some (record { edition = edition; secret = secret })) }
{
    let reset = payload.resets.get(label)?;
    if reset.edition == edition {
        Some(reset.secret)
    } else {
        None
    }
}

// The label of a PIN's leaf, and its reset secret.
fn reset_of(
    account: &str,
    stash: &Stash,
    row: &FactorRecord,
    label: &Text,
    main: &[u8; 32],
) -> Result<(Label, Hash), StoreFault>
    requires plain { IsTrue (is_account_name account.now) }
    requires there { IsSome stash.now.payload }
    requires leaf { IsSome row.now.leaf }
    ensures value { IfOk result (λ made. IsResetOf stash.now main.now label.now row.now made.0 made.1) }
    ensures only { IfErr result (IsStashFault account.now) }
{
    let Some(tree) = row.leaf else { unreachable!() };
    let payload = opened_of(account, stash, main)?;
    match secret_of(&payload, label, row.edition) {
        Some(secret) => Ok((tree, secret)),
        None => Err(StoreFault::Damaged(RecordName::stash(account))),
    }
}

/// What the reset of a loaded PIN needs, under the home's main key.
pub(crate) fn prepare(
    stored: &Stored,
    account: &str,
    label: &Text,
    main: &[u8; 32],
) -> Result<Reset, StoreFault>
    requires plain { IsTrue (is_account_name account.now) }
    requires label { IsTrue (is_factor_label label.now) }
    requires home { HasFactors stored.now }
    requires known { IsSomeAnd (get stored.now.factors label.now) (λ row. IsSome row.leaf) }
    ensures value { IfOk result (IsResetMade stored.now label.now main.now) }
    ensures label { IfOk result (λ made. made.label ≡ label.now) }
    ensures named { IfOk result (IsResetNamed stored.now account.now label.now) }
    ensures only { IfErr result (IsStashFault account.now) }
{
    let Some(stash) = &stored.stash else {
        unreachable!()
    };
    let Some(row) = stored.factors.get(label) else {
        unreachable!()
    };
    let label = label.copy()?;
    let (tree, secret) = reset_of(account, stash, row, &label, main)?;
    let name = RecordName::factor(account, label.as_str(), row.edition);
    Ok(Reset {
        label,
        tree,
        secret,
        name,
    })
}
