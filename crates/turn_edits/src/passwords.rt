//! Passwords are changed and removed.

ghost use Rattle.std.specs.Prelude.{◌≡◌, ◌≤◌, ℕ, List, IfSome, is_some};
ghost use Rattle.std.specs.FinMap.{get};
ghost use Rattle.account_machine.specs.declared.factor.Kind.TheVariants.{Password};
ghost use Rattle.account_machine.specs.declared.request.Request.TheVariants.{UpdateFactor, RemoveFactor};
ghost use Rattle.account_machine.specs.declared.request.Turn.TheVariants.{Act};
ghost use Rattle.factor_files.specs.declared.factor.FactorRecord.{FactorRecord as RowSeen};
ghost use Rattle.home_edits.specs.Costs.{PutsCost};
ghost use Rattle.scrypt_kdf.specs.Derive.{derive};
ghost use Rattle.share_api.specs.Conditions.{IsOf};
ghost use Rattle.stored_home.specs.declared.derived.Derived.{Derived as DerivedSeen};
ghost use Rattle.user_state.specs.Fits.{is_lost};
ghost use Rattle.user_state.specs.Sound.{IsSound};
ghost use Rattle.user_state.specs.Turns.{IsGiven};
ghost use Rattle.turn_rows.specs.Due.{IsReady, IsDue};
ghost use Rattle.turn_edits.specs.Endings.{KeepsState, IsEnded, IsEditions, Draws, IsTried, IsCaused};

use crate::ending::told;
use crate::keys::{derived_key, main_key};
use crate::stash::next_edition;
use account_machine::{Answer, Token};
use ct_bytes::Text;
use share_api::Share;
use std::alloc::Global;
use stored_home::Derived;
use user_state::{Doubt, UserState};

/// Removes a factor that is a password.
///
/// `StorageFault` where a step failed, and `NoMemory` before any step.
pub fn remove_password<S: Share>(
    state: &mut UserState,
    share: &mut S,
    token: &Token,
    label: &Text,
) -> Answer
    requires ready { IsReady state.old }
    requires sound { IsSound state.old }
    requires due { IsDue state.old (Act (RemoveFactor state.old.account token.now label.now)) }
    requires own { IsOf (S.seen share.old).owner state.old.account }
    requires lost { is_some (S.seen share.old).lost ≡ is_lost state.old }
    requires spare { 2 ≤ (S.seen share.old).spare }
    requires password { IfSome (get state.old.stored.factors label.now) (λ (row : RowSeen). row.kind ≡ Password) }
    ensures given { (account : List ℕ) → IsGiven (S.seen share.old) (S.seen share.new) state.old state.new
        (Act (RemoveFactor account token.now label.now)) result }
    ensures sound { IsSound state.new }
    ensures keeps { KeepsState state.old state.new }
    ensures ended { IsEnded IsEditions state.old state.new result }
    ensures draws { Draws 0 0 state.old.generator state.new.generator }
    ensures cost { PutsCost (S.seen share.old) (S.seen share.new) state.old.account state.old.cost }
    ensures caused { IsCaused (S.seen share.old) (S.seen share.new) state.old.account ⊥ result }
    ensures goes { S.goes share.old share.new }
{
    let _ = token;
    let removed = home_edits::remove_password(
        &mut state.stored,
        share,
        state.account.as_str(),
        label,
    );
    told(&mut state.doubt, removed, Doubt::Editions)
}

/// Gives a factor that is a password another secret.
///
/// `derived` is derived of the new secret, and used where its cost is that of new factors: its salt becomes the
/// record's. Else the key is derived with a new salt. `StorageFault` where a step failed, and `NoMemory` before any
/// step.
pub fn update_password<S: Share>(
    alloc: Global,
    state: &mut UserState,
    share: &mut S,
    token: &Token,
    label: &Text,
    secret: &Text,
    derived: Option<Derived>,
) -> Answer
    requires ready { IsReady state.old }
    requires sound { IsSound state.old }
    requires due { IsDue state.old (Act (UpdateFactor state.old.account token.now label.now secret.now)) }
    requires own { IsOf (S.seen share.old).owner state.old.account }
    requires lost { is_some (S.seen share.old).lost ≡ is_lost state.old }
    requires spare { 3 ≤ (S.seen share.old).spare }
    requires password { IfSome (get state.old.stored.factors label.now) (λ (row : RowSeen). row.kind ≡ Password) }
    requires derived { IfSome derived (λ (made : DerivedSeen). made.key ≡ derive secret.now made.salt made.cost) }
    ensures given { (account : List ℕ)
        → IsGiven (S.seen share.old) (S.seen share.new) state.old state.new
        (Act (UpdateFactor account token.now label.now secret.now)) result }
    ensures sound { IsSound state.new }
    ensures keeps { KeepsState state.old state.new }
    ensures ended { IsEnded IsEditions state.old state.new result }
    ensures draws { Draws 0 7 state.old.generator state.new.generator }
    ensures fresh { IsTried result → Draws 3 7 state.old.generator state.new.generator }
    ensures cost { PutsCost (S.seen share.old) (S.seen share.new) state.old.account state.old.cost }
    ensures caused { IsCaused (S.seen share.old) (S.seen share.new) state.old.account ⊥ result }
    ensures goes { S.goes share.old share.new }
{
    let Some(main) = main_key(&state.sessions, token) else {
        unreachable!()
    };
    // an edition is left, since the row's refusals don't apply
    let edition = next_edition(&state.stored);
    prove!(edition < u64::MAX);
    let Ok(derived) = derived_key(alloc, &mut state.generator, state.cost, secret, derived) else {
        return Answer::NoMemory;
    };
    let iv = state.generator.iv();
    let updated = home_edits::update_password(
        alloc,
        &mut state.stored,
        share,
        state.account.as_str(),
        label,
        &derived,
        &main,
        iv,
    );
    told(&mut state.doubt, updated, Doubt::Editions)
}
