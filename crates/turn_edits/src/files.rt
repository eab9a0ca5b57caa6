//! Vault files are put.

ghost use Rattle.std.specs.Prelude.{◌≡◌, ◌≤◌, ℕ, List, Some, IfOk, IsTrue, is_some, length};
ghost use Rattle.account_machine.specs.declared.request.Request.TheVariants.{PutFile};
ghost use Rattle.account_machine.specs.declared.request.Turn.TheVariants.{Act};
ghost use Rattle.home_edits.specs.Costs.{PutsCost};
ghost use Rattle.home_edits.specs.Files.{IsFilePut};
ghost use Rattle.record_names.specs.Names.{is_account_name};
ghost use Rattle.share_api.specs.Conditions.{IsOf};
ghost use Rattle.stored_home.specs.Loaded.{HasFactors};
ghost use Rattle.user_state.specs.Fits.{is_lost};
ghost use Rattle.user_state.specs.Sound.{IsSound};
ghost use Rattle.user_state.specs.Turns.{IsGiven};
ghost use Rattle.vault_crypt.specs.VaultFile.{IsFileName};
ghost use Rattle.turn_rows.specs.Due.{IsReady, IsDue};
ghost use Rattle.turn_edits.specs.Endings.{KeepsState, IsEnded, IsFile, Draws, IsTried, IsCaused};
ghost use Rattle.turn_edits.specs.Stashes.{LacksPayload};
ghost use Rattle.user_state.specs.declared.state.Doubt.{Doubt as DoubtSeen};

use crate::ending::told;
use crate::stash::{damaged_stash, has_payload};
use account_machine::Answer;
use ct_bytes::{Blob, NoMemory, Text};
use home_edits::{FilePut, seal_file_put};
use share_api::Share;
use std::alloc::Global;
use stored_home::Stored;
use user_state::{Doubt, UserState};

// What puts the file, and the evidence that is kept where the put fails.
fn prepare(
    alloc: Global,
    stored: &Stored,
    account: &str,
    name: &Text,
    vault: &[u8; 32],
    iv: [u8; 12],
    bytes: &[u8],
) -> Result<(FilePut, Doubt), NoMemory>
    requires plain { IsTrue (is_account_name account.now) }
    requires name { IsFileName name.now }
    requires size { length bytes.now ≤ 49152 }
    ensures put { IfOk result (λ made. IsFilePut vault.now account.now bytes.now stored.now.files made.0) }
    ensures name { IfOk result (λ made. made.0.name ≡ name.now) }
    ensures doubt { IfOk result (λ made. made.1 ≡ Doubt.File made.0.name made.0.sealed) }
{
    let put = seal_file_put(alloc, &stored.files, account, name, vault, iv, bytes)?;
    let doubt = Doubt::File {
        name: put.name.copy()?,
        record: put.sealed.copy()?,
    };
    Ok((put, doubt))
}

// Puts a file of a home with factors under its vault key.
fn put_under<S: Share>(
    alloc: Global,
    state: &mut UserState,
    share: &mut S,
    name: &Text,
    vault: &[u8; 32],
    bytes: &Blob,
) -> Answer
    requires ready { IsReady state.old }
    requires sound { IsSound state.old }
    requires due { IsDue state.old (Act (PutFile state.old.account name.now bytes.now)) }
    requires own { IsOf (S.seen share.old).owner state.old.account }
    requires lost { is_some (S.seen share.old).lost ≡ is_lost state.old }
    requires spare { 1 ≤ (S.seen share.old).spare }
    requires name { IsFileName name.now }
    requires vault { state.old.vault ≡ Some vault.now }
    requires home { HasFactors state.old.stored }
    ensures given { (account : List ℕ) → IsGiven (S.seen share.old) (S.seen share.new) state.old state.new
        (Act (PutFile account name.now bytes.now)) result }
    ensures sound { IsSound state.new }
    ensures keeps { KeepsState state.old state.new }
    ensures ended { IsEnded (IsFile state.old.account name.now) state.old state.new result }
    ensures draws { Draws 3 3 state.old.generator state.new.generator }
    ensures cost { PutsCost (S.seen share.old) (S.seen share.new) state.old.account state.old.cost }
    ensures caused { IsCaused (S.seen share.old) (S.seen share.new) state.old.account (LacksPayload state.old) result }
    ensures goes { S.goes share.old share.new }
{
    let iv = state.generator.iv();
    let made = prepare(
        alloc,
        &state.stored,
        state.account.as_str(),
        name,
        vault,
        iv,
        bytes.as_slice(),
    );
    match made {
        Ok((put, doubt)) => {
            let put = home_edits::put_file(&mut state.stored, share, state.account.as_str(), put);
            told(&mut state.doubt, put, doubt)
        }
        Err(NoMemory) => Answer::NoMemory,
    }
}

/// Gives a file of the mounted vault these bytes, at most 49,152.
///
/// `StorageFault` where its step failed: then the file's record is kept, which tells whether it was put. `NoMemory`
/// before any step. `Damaged` with the stash's name where the stash has no payload.
pub fn put_file<S: Share>(
    alloc: Global,
    state: &mut UserState,
    share: &mut S,
    name: &Text,
    bytes: &Blob,
) -> Answer
    requires ready { IsReady state.old }
    requires sound { IsSound state.old }
    requires due { IsDue state.old (Act (PutFile state.old.account name.now bytes.now)) }
    requires own { IsOf (S.seen share.old).owner state.old.account }
    requires lost { is_some (S.seen share.old).lost ≡ is_lost state.old }
    requires spare { 1 ≤ (S.seen share.old).spare }
    requires name { IsFileName name.now }
    ensures given { (account : List ℕ) → IsGiven (S.seen share.old) (S.seen share.new) state.old state.new
        (Act (PutFile account name.now bytes.now)) result }
    ensures sound { IsSound state.new }
    ensures keeps { KeepsState state.old state.new }
    ensures ended { IsEnded (IsFile state.old.account name.now) state.old state.new result }
    ensures draws { Draws 0 3 state.old.generator state.new.generator }
    ensures fresh { IsTried result → Draws 3 3 state.old.generator state.new.generator }
    ensures cost { PutsCost (S.seen share.old) (S.seen share.new) state.old.account state.old.cost }
    ensures caused { IsCaused (S.seen share.old) (S.seen share.new) state.old.account (LacksPayload state.old) result }
    ensures goes { S.goes share.old share.new }
{
    let Some(vault) = state.vault else {
        unreachable!()
    };
    if has_payload(&state.stored) {
        put_under(alloc, state, share, name, &vault, bytes)
    } else {
        damaged_stash(alloc, state.account.as_str())
    }
}
