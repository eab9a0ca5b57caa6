//! The vault is opened.

ghost use Rattle.std.specs.Prelude.{◌≡◌, ℕ, List};
ghost use Rattle.account_machine.specs.declared.request.Request.TheVariants.{Mount};
ghost use Rattle.account_machine.specs.declared.request.Turn.TheVariants.{Act};
ghost use Rattle.share_api.specs.Seen.{ShareSeen};
ghost use Rattle.user_state.specs.Sound.{IsSound};
ghost use Rattle.user_state.specs.Turns.{IsGiven};
ghost use Rattle.turn_rows.specs.Due.{IsReady, IsDue};
ghost use Rattle.turn_secrets.specs.Mounts.{IsVaultKey, MountAnswers};

use crate::damaged::damaged;
use account_machine::{Answer, Token};
use record_names::RecordName;
use secret_stash::{Stash, StashFault};
use std::alloc::Global;
use user_state::UserState;

/// What a stash's payload gives under a main key.
#[derive(Clone, Copy)]
pub enum VaultKey {
    /// The vault key.
    Opened([u8; 32]),
    /// There is no payload, or it doesn't open.
    Damaged,
    /// There was no memory.
    Starved,
}

// The vault key of the stash's payload.
fn vault_key(stash: &Stash, main: &[u8; 32]) -> VaultKey
    ensures { IsVaultKey stash.now main.now result }
{
    if !stash.has_payload() {
        return VaultKey::Damaged;
    }
    match stash.payload(main) {
        Ok(payload) => VaultKey::Opened(payload.vault),
        Err(StashFault::NoMemory) => VaultKey::Starved,
        Err(_) => VaultKey::Damaged,
    }
}

/// Opens the vault: the key that the stash's payload has under the session's main key is kept.
///
/// The answers are `Ok`, `Damaged` with the stash's name where there is no payload or it doesn't open, and `NoMemory`.
/// After the latter two nothing has changed.
pub fn mount(alloc: Global, state: &mut UserState, token: &Token) -> Answer
    requires ready { IsReady state.old }
    requires sound { IsSound state.old }
    requires due { IsDue state.old (Act (Mount state.old.account token.now)) }
    ensures given { (share : ShareSeen) (account : List ℕ)
        → IsGiven share share state.old state.new (Act (Mount account token.now)) result }
    ensures sound { IsSound state.new }
    ensures answers { MountAnswers token.now state.old state.new result }
{
    let Some(at) = state.sessions.place(token) else {
        unreachable!()
    };
    let Some(main) = state.sessions.main(at) else {
        unreachable!()
    };
    let Some(stash) = &state.stored.stash else {
        unreachable!()
    };
    match vault_key(stash, main) {
        VaultKey::Opened(vault) => {
            state.vault = Some(vault);
            Answer::Ok
        }
        VaultKey::Damaged => damaged(alloc, &RecordName::stash(state.account.as_str())),
        VaultKey::Starved => Answer::NoMemory,
    }
}
