//! Vault files are read.

ghost use Rattle.std.specs.Prelude.{◌≡◌, ◌≤◌, ℕ, List, Some, is_some};
ghost use Rattle.account_machine.specs.declared.request.Request.TheVariants.{GetFile};
ghost use Rattle.account_machine.specs.declared.request.Turn.TheVariants.{Act};
ghost use Rattle.home_edits.specs.Costs.{PutsCost};
ghost use Rattle.share_api.specs.Conditions.{IsOf};
ghost use Rattle.stored_home.specs.Loaded.{HasFactors};
ghost use Rattle.user_state.specs.Fits.{is_lost};
ghost use Rattle.user_state.specs.Sound.{IsSound};
ghost use Rattle.user_state.specs.Turns.{IsGiven};
ghost use Rattle.vault_crypt.specs.VaultFile.{IsFileName};
ghost use Rattle.turn_rows.specs.Due.{IsReady, IsDue};
ghost use Rattle.turn_edits.specs.Endings.{KeepsState, IsEnded, IsEditions};
ghost use Rattle.turn_edits.specs.Reads.{IsFaultAnswer, IsReadAnswer, IsReadCaused, doubt_of_fault, doubt_of_read};
ghost use Rattle.turn_edits.specs.Stashes.{LacksPayload};

use crate::stash::{damaged, damaged_stash, has_payload};
use account_machine::Answer;
use ct_bytes::{Blob, Text};
use share_api::Share;
use std::alloc::Global;
use stored_home::StoreFault;
use user_state::{Doubt, UserState};

// Answers a read's fault. After a failed step what tells the two durable parts apart is kept.
fn fault_told(alloc: Global, kept: &mut Option<Doubt>, fault: StoreFault) -> Answer
    ensures answer { IsFaultAnswer fault result }
    ensures doubt { kept.new ≡ doubt_of_fault kept.old fault }
{
    match fault {
        StoreFault::Failed => {
            *kept = Some(Doubt::Editions);
            Answer::StorageFault
        }
        StoreFault::Damaged(name) => damaged(alloc, &name),
        StoreFault::NoMemory => Answer::NoMemory,
        StoreFault::TreeLost { .. } => Answer::NoMemory,
    }
}

// Answers a read.
fn read_told(alloc: Global, kept: &mut Option<Doubt>, read: Result<Blob, StoreFault>) -> Answer
    ensures answer { IsReadAnswer read result }
    ensures doubt { kept.new ≡ doubt_of_read kept.old read }
{
    match read {
        Ok(bytes) => Answer::OkBytes(bytes),
        Err(fault) => fault_told(alloc, kept, fault),
    }
}

// Reads a file of a home with factors under its vault key.
fn get_under<S: Share>(
    alloc: Global,
    state: &mut UserState,
    share: &mut S,
    name: &Text,
    vault: &[u8; 32],
) -> Answer
    requires ready { IsReady state.old }
    requires sound { IsSound state.old }
    requires due { IsDue state.old (Act (GetFile state.old.account name.now)) }
    requires own { IsOf (S.seen share.old).owner state.old.account }
    requires lost { is_some (S.seen share.old).lost ≡ is_lost state.old }
    requires spare { 1 ≤ (S.seen share.old).spare }
    requires name { IsFileName name.now }
    requires vault { state.old.vault ≡ Some vault.now }
    requires home { HasFactors state.old.stored }
    ensures given { (account : List ℕ) → IsGiven (S.seen share.old) (S.seen share.new) state.old state.new
        (Act (GetFile account name.now)) result }
    ensures sound { IsSound state.new }
    ensures keeps { KeepsState state.old state.new }
    ensures ended { IsEnded IsEditions state.old state.new result }
    ensures generator { state.new.generator ≡ state.old.generator }
    ensures cost { PutsCost (S.seen share.old) (S.seen share.new) state.old.account state.old.cost }
    ensures caused { IsReadCaused (S.seen share.old) (S.seen share.new) state.old.account name.now
        state.old.vault (LacksPayload state.old) result }
    ensures goes { S.goes share.old share.new }
{
    let read = home_edits::get_file(alloc, share, state.account.as_str(), name.as_str(), vault);
    read_told(alloc, &mut state.doubt, read)
}

/// The bytes of a file of the mounted vault.
///
/// `StorageFault` where its step failed, and `NoMemory`. `Damaged` with the file's record where that isn't there,
/// breaks its form or has another tag, and with the stash's where the stash has no payload.
pub fn get_file<S: Share>(
    alloc: Global,
    state: &mut UserState,
    share: &mut S,
    name: &Text,
) -> Answer
    requires ready { IsReady state.old }
    requires sound { IsSound state.old }
    requires due { IsDue state.old (Act (GetFile state.old.account name.now)) }
    requires own { IsOf (S.seen share.old).owner state.old.account }
    requires lost { is_some (S.seen share.old).lost ≡ is_lost state.old }
    requires spare { 1 ≤ (S.seen share.old).spare }
    requires name { IsFileName name.now }
    ensures given { (account : List ℕ) → IsGiven (S.seen share.old) (S.seen share.new) state.old state.new
        (Act (GetFile account name.now)) result }
    ensures sound { IsSound state.new }
    ensures keeps { KeepsState state.old state.new }
    ensures ended { IsEnded IsEditions state.old state.new result }
    ensures generator { state.new.generator ≡ state.old.generator }
    ensures cost { PutsCost (S.seen share.old) (S.seen share.new) state.old.account state.old.cost }
    ensures caused { IsReadCaused (S.seen share.old) (S.seen share.new) state.old.account name.now
        state.old.vault (LacksPayload state.old) result }
    ensures goes { S.goes share.old share.new }
{
    let Some(vault) = state.vault else {
        unreachable!()
    };
    if has_payload(&state.stored) {
        get_under(alloc, state, share, name, &vault)
    } else {
        damaged_stash(alloc, state.account.as_str())
    }
}
