//! A password is tried.

ghost use Rattle.std.specs.Prelude.{◌≡◌, ◌≤◌, ◌<◌, ℕ, List, length, IfSome, is_some, option_copied};
ghost use Rattle.account_machine.specs.declared.request.Request.TheVariants.{Authenticate};
ghost use Rattle.account_machine.specs.declared.request.Turn.TheVariants.{Act};
ghost use Rattle.account_machine.specs.declared.session.Token.{Token as TokenSeen};
ghost use Rattle.account_machine.specs.Sessions.{place_of};
ghost use Rattle.auth_session.specs.Table.{sessions_in};
ghost use Rattle.home_edits.specs.Costs.{PutsCost};
ghost use Rattle.share_api.specs.Conditions.{IsOf};
ghost use Rattle.user_state.specs.Fits.{is_lost};
ghost use Rattle.user_state.specs.Sound.{IsSound};
ghost use Rattle.user_state.specs.Turns.{IsGiven};
ghost use Rattle.turn_rows.specs.Due.{IsReady, IsDue};
ghost use Rattle.turn_secrets.specs.Checked.{IsPasswordAt, IsOfSecret, IsRight};
ghost use Rattle.turn_secrets.specs.Passwords.{Answers};

use crate::binding::bind;
use crate::check::{Checked, check};
use account_machine::{Answer, Token};
use ct_bytes::Text;
use share_api::Share;
use std::alloc::Global;
use stored_home::{Derived, StoreFault};
use user_state::{Doubt, UserState};

/// Tries a password in the token's session.
///
/// A derived key is used where its salt and its cost are those of the password's record; else the key is derived here.
/// Where the password's block is bound to nothing it is sealed anew before a right password is answered: the put of the
/// stash is then the one device step, and none is made otherwise. The answers:
/// - `Wrong` where the block's tag isn't that of the secret's wrap key. Nothing changes.
/// - `OkPassword` with the session's end where it is; the session keeps the main key.
/// - `StorageFault` where that put failed. The session isn't authenticated, and the account is unsettled.
/// - `NoMemory`, with no step made.
pub fn authenticate_password<S: Share>(
    alloc: Global,
    state: &mut UserState,
    share: &mut S,
    token: &Token,
    label: &Text,
    secret: &Text,
    derived: Option<&Derived>,
) -> Answer
    requires ready { IsReady state.old }
    requires sound { IsSound state.old }
    requires due { IsDue state.old (Act (Authenticate state.old.account token.now label.now secret.now)) }
    requires password { IsPasswordAt state.old.stored label.now }
    requires own { IsOf (S.seen share.old).owner state.old.account }
    requires lost { is_some (S.seen share.old).lost ≡ is_lost state.old }
    requires spare { 1 ≤ (S.seen share.old).spare }
    requires derived { IfSome (option_copied derived) (IsOfSecret secret.now) }
    ensures given { (account : List ℕ) → IsGiven (S.seen share.old) (S.seen share.new) state.old state.new
        (Act (Authenticate account token.now label.now secret.now)) result }
    ensures sound { IsSound state.new }
    ensures cost { (cost : ℕ) → PutsCost (S.seen share.old) (S.seen share.new) state.old.account cost }
    ensures answers { Answers (S.seen share.old) (S.seen share.new) token.now label.now secret.now
        state.old state.new result }
    ensures goes { S.goes share.old share.new }
{
    let Some(at) = state.sessions.place(token) else {
        unreachable!()
    };
    match check(alloc, &state.stored, label, secret, derived) {
        Checked::Wrong => Answer::Wrong,
        Checked::Starved => Answer::NoMemory,
        Checked::Right { key, main } => prove(state, share, at, label, &key, &main),
    }
}

// Authenticates the session there with the main key, once the label's block is bound.
fn prove<S: Share>(
    state: &mut UserState,
    share: &mut S,
    at: usize,
    label: &Text,
    key: &[u8; 64],
    main: &[u8; 32],
) -> Answer
    requires ready { IsReady state.old }
    requires sound { IsSound state.old }
    requires inside { at < length state.old.sessions.kept }
    requires password { IsPasswordAt state.old.stored label.now }
    requires own { IsOf (S.seen share.old).owner state.old.account }
    requires lost { is_some (S.seen share.old).lost ≡ is_lost state.old }
    requires spare { 1 ≤ (S.seen share.old).spare }
    ensures given { (token : TokenSeen) (secret account : List ℕ)
        → at ≡ place_of token (sessions_in state.old.sessions.kept)
        → IsDue state.old (Act (Authenticate account token label.now secret))
        → IsRight state.old.stored label.now secret key.now main.now
        → IsGiven (S.seen share.old) (S.seen share.new) state.old state.new
        (Act (Authenticate account token label.now secret)) result }
    ensures sound { IsSound state.new }
    ensures cost { (cost : ℕ) → PutsCost (S.seen share.old) (S.seen share.new) state.old.account cost }
    ensures answers { (token : TokenSeen) (secret : List ℕ)
        → at ≡ place_of token (sessions_in state.old.sessions.kept)
        → IsRight state.old.stored label.now secret key.now main.now
        → Answers (S.seen share.old) (S.seen share.new) token label.now secret state.old state.new result }
    ensures goes { S.goes share.old share.new }
{
    let account = state.account.as_str();
    match bind(
        &mut state.stored,
        &mut state.generator,
        share,
        account,
        label,
        key,
        main,
    ) {
        Ok(()) => Answer::OkPassword(state.sessions.prove(at, *main, state.last)),
        Err(StoreFault::NoMemory) => Answer::NoMemory,
        Err(StoreFault::Failed) => {
            state.doubt = Some(Doubt::Editions);
            Answer::StorageFault
        }
        Err(StoreFault::Damaged(_) | StoreFault::TreeLost { .. }) => unreachable!(),
    }
}
