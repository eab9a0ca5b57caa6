//! Passwords are added.

ghost use Rattle.std.specs.Prelude.{◌≡◌, ◌≤◌, ◌<◌, ℕ, List, Option, None, false, true, IfSome, IfErr, IsTrue, is_some, length};
ghost use Rattle.std.specs.FinMap.{len};
ghost use Rattle.account_machine.specs.declared.factor.Kind.TheVariants.{Password};
ghost use Rattle.account_machine.specs.declared.request.Request.TheVariants.{AddFactor};
ghost use Rattle.account_machine.specs.declared.request.Turn.TheVariants.{Act};
ghost use Rattle.home_edits.specs.Costs.{PutsCost};
ghost use Rattle.record_names.specs.Names.{is_factor_label};
ghost use Rattle.scrypt_kdf.specs.Derive.{derive};
ghost use Rattle.share_api.specs.Conditions.{IsOf};
ghost use Rattle.stored_home.specs.declared.derived.Derived.{Derived as DerivedSeen};
ghost use Rattle.user_state.specs.Fits.{is_lost};
ghost use Rattle.user_state.specs.Sound.{IsSound};
ghost use Rattle.user_state.specs.Turns.{IsGiven};
ghost use Rattle.turn_rows.specs.Due.{IsReady, IsDue};
ghost use Rattle.turn_edits.specs.Endings.{KeepsState, IsEnded, IsEditions, Draws, IsTried, IsCaused, answer_of, doubt_of};
ghost use Rattle.turn_edits.specs.Sessions.{ShowsHome, has_main, sessions_after};
ghost use Rattle.turn_edits.specs.Stashes.{has_payload};

use crate::ending::told;
use crate::keys::{derived_key, has_main, main_key};
use crate::stash::{damaged_stash, has_payload, next_edition};
use account_machine::{Answer, Token};
use ct_bytes::Text;
use home_edits::{HomeKeys, Ivs};
use share_api::Share;
use std::alloc::Global;
use stored_home::{Derived, StoreFault};
use user_state::{Doubt, UserState};

// Adds a password to a home with factors.
fn add_further<S: Share>(
    alloc: Global,
    state: &mut UserState,
    share: &mut S,
    token: &Token,
    label: &Text,
    secret: &Text,
    derived: Option<Derived>,
) -> Answer
    requires ready { IsReady state.old }
    requires sound { IsSound state.old }
    requires due { IsDue state.old (Act (AddFactor state.old.account token.now label.now Password secret.now None)) }
    requires own { IsOf (S.seen share.old).owner state.old.account }
    requires lost { is_some (S.seen share.old).lost ≡ is_lost state.old }
    requires spare { 2 ≤ (S.seen share.old).spare }
    requires label { IsTrue (is_factor_label label.now) }
    requires home { has_payload state.old.stored.stash ≡ true }
    requires derived { IfSome derived (λ (made : DerivedSeen). made.key ≡ derive secret.now made.salt made.cost) }
    ensures given { (account : List ℕ) (schedule : Option (List (ℕ × ℕ)))
        → IsGiven (S.seen share.old) (S.seen share.new) state.old state.new
        (Act (AddFactor account token.now label.now Password secret.now schedule)) result }
    ensures sound { IsSound state.new }
    ensures keeps { KeepsState state.old state.new }
    ensures ended { IsEnded IsEditions state.old state.new result }
    ensures draws { Draws 0 7 state.old.generator state.new.generator }
    ensures fresh { IsTried result → Draws 3 7 state.old.generator state.new.generator }
    ensures cost { PutsCost (S.seen share.old) (S.seen share.new) state.old.account state.old.cost }
    ensures caused { IsCaused (S.seen share.old) (S.seen share.new) state.old.account ⊥ result }
    ensures goes { S.goes share.old share.new }
{
    let Some(main) = main_key(&state.sessions, token) else {
        unreachable!()
    };
    // an edition is left, since the row's refusals don't apply
    let edition = next_edition(&state.stored);
    prove!(edition < u64::MAX);
    let Ok(derived) = derived_key(alloc, &mut state.generator, state.cost, secret, derived) else {
        return Answer::NoMemory;
    };
    let iv = state.generator.iv();
    let added = home_edits::add_password(
        alloc,
        &mut state.stored,
        share,
        state.account.as_str(),
        label,
        &derived,
        &main,
        iv,
    );
    told(&mut state.doubt, added, Doubt::Editions)
}

// Answers the edit that adds a first password. Once it is added the session there keeps the main key.
fn first_told(
    state: &mut UserState,
    at: usize,
    main: [u8; 32],
    added: Result<(), StoreFault>,
) -> Answer
    requires { at < length state.old.sessions.kept }
    ensures answer { result ≡ answer_of added }
    ensures after { state.new ≡ record state.old {
      sessions = sessions_after added at main state.old.sessions;
      doubt = doubt_of Doubt.Editions state.old.doubt added;
    } }
{
    match added {
        Ok(()) => {
            state.sessions.prove_new(at, main);
            Answer::Ok
        }
        Err(StoreFault::Failed) => {
            state.doubt = Some(Doubt::Editions);
            Answer::StorageFault
        }
        Err(_) => Answer::NoMemory,
    }
}

// Adds the first password of a home, in which no session has a main key.
fn add_first<S: Share>(
    alloc: Global,
    state: &mut UserState,
    share: &mut S,
    token: &Token,
    label: &Text,
    secret: &Text,
    derived: Option<Derived>,
) -> Answer
    requires ready { IsReady state.old }
    requires sound { IsSound state.old }
    requires due { IsDue state.old (Act (AddFactor state.old.account token.now label.now Password secret.now None)) }
    requires own { IsOf (S.seen share.old).owner state.old.account }
    requires lost { is_some (S.seen share.old).lost ≡ is_lost state.old }
    requires spare { 2 ≤ (S.seen share.old).spare }
    requires label { IsTrue (is_factor_label label.now) }
    requires bare { has_payload state.old.stored.stash ≡ false }
    requires unmounted { is_some state.old.vault ≡ false }
    requires no_files { len state.old.stored.files ≡ 0 }
    requires no_main { has_main state.old.sessions.kept ≡ false }
    requires derived { IfSome derived (λ (made : DerivedSeen). made.key ≡ derive secret.now made.salt made.cost) }
    ensures given { (account : List ℕ) (schedule : Option (List (ℕ × ℕ)))
        → IsGiven (S.seen share.old) (S.seen share.new) state.old state.new
        (Act (AddFactor account token.now label.now Password secret.now schedule)) result }
    ensures sound { IsSound state.new }
    ensures keeps { KeepsState state.old state.new }
    ensures ended { IsEnded IsEditions state.old state.new result }
    ensures draws { Draws 0 26 state.old.generator state.new.generator }
    ensures fresh { IsTried result → Draws 22 26 state.old.generator state.new.generator }
    ensures cost { PutsCost (S.seen share.old) (S.seen share.new) state.old.account state.old.cost }
    ensures caused { IsCaused (S.seen share.old) (S.seen share.new) state.old.account ⊥ result }
    ensures goes { S.goes share.old share.new }
{
    let Some(at) = state.sessions.place(token) else {
        unreachable!()
    };
    // an edition is left, since the row's refusals don't apply
    let edition = next_edition(&state.stored);
    prove!(edition < u64::MAX);
    let Ok(derived) = derived_key(alloc, &mut state.generator, state.cost, secret, derived) else {
        return Answer::NoMemory;
    };
    let main = state.generator.key();
    let vault = state.generator.key();
    let block = state.generator.iv();
    let payload = state.generator.iv();
    let added = home_edits::add_first_password(
        alloc,
        &mut state.stored,
        share,
        state.account.as_str(),
        label,
        &derived,
        &HomeKeys { main, vault },
        &Ivs { block, payload },
    );
    first_told(state, at, main, added)
}

// Whether a session, the mount or a vault file shows a home with factors.
fn shows_home(state: &UserState) -> bool
    ensures vault { result ≡ false → is_some state.now.vault ≡ false }
    ensures files { result ≡ false → len state.now.stored.files ≡ 0 }
    ensures sessions { result ≡ false → has_main state.now.sessions.kept ≡ false }
    ensures shows { result ≡ true → has_payload state.now.stored.stash ≡ false → ShowsHome state.now }
{
    state.vault.is_some() || !state.stored.files.is_empty() || has_main(&state.sessions)
}

/// Adds a password. The first one of a home makes its main key and its vault key, and authenticates the session.
///
/// `derived` is derived of the secret, and used where its cost is that of new factors: its salt becomes the record's.
/// Else the key is derived with a new salt. `StorageFault` where a step failed, and `NoMemory` before any step.
/// `Damaged` with the stash's name where the stash has no payload, and yet a session has a main key, the vault is
/// mounted or a vault file is loaded.
pub fn add_password<S: Share>(
    alloc: Global,
    state: &mut UserState,
    share: &mut S,
    token: &Token,
    label: &Text,
    secret: &Text,
    derived: Option<Derived>,
) -> Answer
    requires ready { IsReady state.old }
    requires sound { IsSound state.old }
    requires due { IsDue state.old (Act (AddFactor state.old.account token.now label.now Password secret.now None)) }
    requires own { IsOf (S.seen share.old).owner state.old.account }
    requires lost { is_some (S.seen share.old).lost ≡ is_lost state.old }
    requires spare { 2 ≤ (S.seen share.old).spare }
    requires label { IsTrue (is_factor_label label.now) }
    requires derived { IfSome derived (λ (made : DerivedSeen). made.key ≡ derive secret.now made.salt made.cost) }
    ensures given { (account : List ℕ) (schedule : Option (List (ℕ × ℕ)))
        → IsGiven (S.seen share.old) (S.seen share.new) state.old state.new
        (Act (AddFactor account token.now label.now Password secret.now schedule)) result }
    ensures sound { IsSound state.new }
    ensures keeps { KeepsState state.old state.new }
    ensures ended { IsEnded IsEditions state.old state.new result }
    ensures draws { Draws 0 26 state.old.generator state.new.generator }
    ensures fresh { IsTried result → Draws 3 26 state.old.generator state.new.generator }
    ensures cost { PutsCost (S.seen share.old) (S.seen share.new) state.old.account state.old.cost }
    ensures caused { IsCaused (S.seen share.old) (S.seen share.new) state.old.account (ShowsHome state.old) result }
    ensures goes { S.goes share.old share.new }
{
    if has_payload(&state.stored) {
        add_further(alloc, state, share, token, label, secret, derived)
    } else if shows_home(state) {
        damaged_stash(alloc, state.account.as_str())
    } else {
        add_first(alloc, state, share, token, label, secret, derived)
    }
}
