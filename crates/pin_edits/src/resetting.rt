//! Setting a PIN's count back.

ghost use Rattle.std.specs.Prelude.{◌≡◌, ℕ, ◌≤◌, ◌<◌, ◌^◌, List, IsTrue, IsSome, IsErrOf, IfOk, IfSome, IfErr, IsSomeAnd, Some, Ok, is_some};
ghost use Rattle.std.specs.FinMap.{get};
ghost use Rattle.record_names.specs.Names.{is_account_name, is_factor_label, factor_name};
ghost use Rattle.factor_files.specs.declared.factor.FactorRecord.{FactorRecord as RowSeen};
ghost use Rattle.secret_stash.specs.Keys.{opened_payload};
ghost use Rattle.stash_format.specs.declared.contents.Contents.{Contents as StashSeen};
ghost use Rattle.stored_home.specs.Loaded.{HasFactors};
ghost use Rattle.pin_edits.specs.Faults.{IsStashFault, IsResetFault, TellsLost};
ghost use Rattle.pin_edits.specs.Resets.{IsResetOf, EditsByReset, told_reset};

use crate::lost::in_step;
use crate::trying::told;
use ct_bytes::Text;
use factor_files::FactorRecord;
use pw_path::{Hash, Label};
use record_names::RecordName;
use secret_stash::{Payload, Stash, StashFault};
use share_api::{Share, ShareFault};
use stored_home::{StoreFault, Stored};

/// What a stash's payload holds under the main key. Where it doesn't open the stash is damaged.
pub(crate) fn opened_of(
    account: &str,
    stash: &Stash,
    main: &[u8; 32],
) -> Result<Payload, StoreFault>
    requires plain { IsTrue (is_account_name account.now) }
    requires there { IsSome stash.now.payload }
    ensures ok { IfOk result (λ payload. opened_payload stash.now main.now ≡ Ok payload) }
    ensures only { IfErr result (IsStashFault account.now) }
{
    match stash.payload(main) {
        Ok(payload) => Ok(payload),
        Err(StashFault::NoMemory) => Err(StoreFault::NoMemory),
        Err(_) => Err(StoreFault::Damaged(RecordName::stash(account))),
    }
}

// The reset secret of a label and an edition.
fn secret_of(payload: &Payload, label: &Text, edition: u64) -> Option<Hash>
    ensures found { IfSome result (λ secret. get payload.now.resets label.now
        ≡ Some (record { edition = edition; secret = secret })) }
{
    let reset = payload.resets.get(label)?;
    if reset.edition == edition {
        Some(reset.secret)
    } else {
        None
    }
}

// The label of a PIN's leaf, and its reset secret.
fn reset_of(
    account: &str,
    stash: &Stash,
    row: &FactorRecord,
    label: &Text,
    main: &[u8; 32],
) -> Result<(Label, Hash), StoreFault>
    requires plain { IsTrue (is_account_name account.now) }
    requires there { IsSome stash.now.payload }
    requires leaf { IsSome row.now.leaf }
    ensures value { IfOk result (λ made. IsResetOf stash.now main.now label.now row.now made.0 made.1) }
    ensures only { IfErr result (IsStashFault account.now) }
{
    let Some(tree) = row.leaf else { unreachable!() };
    let payload = opened_of(account, stash, main)?;
    match secret_of(&payload, label, row.edition) {
        Some(secret) => Ok((tree, secret)),
        None => Err(StoreFault::Damaged(RecordName::stash(account))),
    }
}

// The same of a loaded PIN, and the name of its record.
fn prepare_reset(
    stored: &Stored,
    account: &str,
    label: &Text,
    main: &[u8; 32],
) -> Result<(Label, Hash, RecordName), StoreFault>
    requires plain { IsTrue (is_account_name account.now) }
    requires label { IsTrue (is_factor_label label.now) }
    requires home { HasFactors stored.now }
    requires known { IsSomeAnd (get stored.now.factors label.now) (λ row. IsSome row.leaf) }
    ensures value { IfOk result (λ made. (row : RowSeen) (stash : StashSeen)
        → get stored.now.factors label.now ≡ Some row → stored.now.stash ≡ Some stash
        → IsResetOf stash main.now label.now row made.0 made.1) }
    ensures named { IfOk result (λ made. (row : RowSeen) → get stored.now.factors label.now ≡ Some row
        → made.2 ≡ factor_name account.now label.now row.edition) }
    ensures only { IfErr result (IsStashFault account.now) }
{
    let Some(stash) = &stored.stash else {
        unreachable!()
    };
    let Some(row) = stored.factors.get(label) else {
        unreachable!()
    };
    let (tree, secret) = reset_of(account, stash, row, label, main)?;
    let name = RecordName::factor(account, label.as_str(), row.edition);
    Ok((tree, secret, name))
}

// How the reset of a leaf ended, as an edit tells it: one that doesn't take the secret damages the PIN's record.
fn ended_reset(tried: Result<bool, ShareFault>, name: RecordName) -> Result<(), StoreFault>
    ensures value { result ≡ told_reset name tried }
{
    match tried {
        Ok(true) => Ok(()),
        Ok(false) => Err(StoreFault::Damaged(name)),
        Err(fault) => Err(told(fault)),
    }
}

/// Sets a PIN's count back to 0, with the reset secret that the payload has under the home's main key. The reset of its
/// leaf is the one device step.
///
/// `moment` is in seconds. The faults are `TreeLost` exactly where the tree is lost and `NoMemory`, both with no step
/// made, `Failed`, and `Damaged`, after which nothing has changed: with the stash's name where the payload doesn't open
/// or lacks the PIN's reset secret, with the PIN's record's where the leaf has another, and with the leaf's.
pub fn reset_pin<S: Share>(
    stored: &Stored,
    share: &mut S,
    account: &str,
    label: &Text,
    main: &[u8; 32],
    moment: u64,
) -> Result<(), StoreFault>
    requires plain { IsTrue (is_account_name account.now) }
    requires spare { 1 ≤ (S.seen share.old).spare }
    requires moment { moment < 2 ^ 40 }
    requires lost { is_some (S.seen share.old).lost ≡ is_some stored.now.lost }
    requires label { IsTrue (is_factor_label label.now) }
    requires home { HasFactors stored.now }
    requires known { IsSomeAnd (get stored.now.factors label.now) (λ row. IsSome row.leaf) }
    ensures edits { EditsByReset (S.seen share.old) (S.seen share.new) account.now stored.now label.now main.now
        result }
    ensures only { (row : RowSeen) (tree : ℕ) → get stored.now.factors label.now ≡ Some row → row.leaf ≡ Some tree
        → IfErr result (IsResetFault account.now label.now row.edition tree) }
    ensures tree { TellsLost stored.now.lost result }
    ensures still { IsSome stored.now.lost → S.seen share.new ≡ S.seen share.old }
    ensures calm { IsErrOf result StoreFault.NoMemory → S.seen share.new ≡ S.seen share.old }
    ensures goes { S.goes share.old share.new }
{
    in_step(stored)?;
    let (tree, secret, name) = prepare_reset(stored, account, label, main)?;
    ended_reset(share.reset_leaf(tree, &secret, moment), name)
}
