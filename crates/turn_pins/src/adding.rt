//! PINs are added.

ghost use Rattle.std.specs.Prelude.{◌≡◌, ◌≤◌, ◌<◌, ℕ, List, None, IfSome, IsSome, IsTrue, is_some};
ghost use Rattle.account_machine.specs.declared.factor.Kind.TheVariants.{Pin};
ghost use Rattle.account_machine.specs.declared.request.Request.TheVariants.{AddFactor};
ghost use Rattle.account_machine.specs.declared.request.Turn.TheVariants.{Act};
ghost use Rattle.home_edits.specs.Costs.{PutsCost};
ghost use Rattle.pin_edits.specs.Faults.{IsStashOrLeaf};
ghost use Rattle.pin_edits.specs.Pins.{ComesToNothing};
ghost use Rattle.record_names.specs.Names.{is_factor_label};
ghost use Rattle.scrypt_kdf.specs.Derive.{derive};
ghost use Rattle.share_api.specs.Conditions.{IsOf};
ghost use Rattle.stored_home.specs.declared.derived.Derived.{Derived as DerivedSeen};
ghost use Rattle.user_state.specs.Fits.{is_lost};
ghost use Rattle.user_state.specs.Sound.{IsSound, IsTellable};
ghost use Rattle.user_state.specs.Turns.{IsGiven};
ghost use Rattle.turn_rows.specs.Due.{IsReady, IsDue};
ghost use Rattle.turn_edits.specs.Endings.{KeepsState, IsEnded, IsEditions, Draws, IsTried};
ghost use Rattle.turn_pins.specs.Endings.{IsPinCaused};

use crate::keys::main_key;
use crate::new_pin::{new_ivs, new_pin, next_edition, schedule_of};
use crate::resetting::told;
use account_machine::{Answer, Token};
use ct_bytes::Text;
use pw_types::Schedule;
use share_api::Share;
use std::alloc::Global;
use stored_home::Derived;
use user_state::{Doubt, UserState};

// Adds a PIN where the tree isn't lost.
fn add_held<S: Share>(
    alloc: Global,
    state: &mut UserState,
    share: &mut S,
    token: &Token,
    label: &Text,
    secret: &Text,
    schedule: Option<Schedule>,
    derived: Option<Derived>,
) -> Answer
    requires ready { IsReady state.old }
    requires sound { IsSound state.old }
    requires due { IsDue state.old (Act (AddFactor state.old.account token.now label.now Pin secret.now schedule)) }
    requires own { IsOf (S.seen share.old).owner state.old.account }
    requires lost { is_some (S.seen share.old).lost ≡ is_lost state.old }
    requires whole { state.old.stored.lost ≡ None }
    requires spare { 3 ≤ (S.seen share.old).spare }
    requires label { IsTrue (is_factor_label label.now) }
    requires derived { IfSome derived (λ (made : DerivedSeen). made.key ≡ derive secret.now made.salt made.cost) }
    ensures given { (account : List ℕ) → IsGiven (S.seen share.old) (S.seen share.new) state.old state.new
        (Act (AddFactor account token.now label.now Pin secret.now schedule)) result }
    ensures sound { IsSound state.new }
    ensures keeps { KeepsState state.old state.new }
    ensures ended { IsEnded IsEditions state.old state.new result }
    ensures tellable { IsTellable state.new.doubt state.new }
    ensures draws { Draws 0 26 state.old.generator state.new.generator }
    ensures fresh { IsTried result → Draws 22 26 state.old.generator state.new.generator }
    ensures cost { PutsCost (S.seen share.old) (S.seen share.new) state.old.account state.old.cost }
    ensures caused { IsPinCaused (S.seen share.old) (S.seen share.new) state.old.stored.lost
        (ComesToNothing (S.seen share.old) (S.seen share.new))
        (λ name. IsStashOrLeaf state.old.account name × ComesToNothing (S.seen share.old) (S.seen share.new)) result }
    ensures goes { S.goes share.old share.new }
{
    let Some(main) = main_key(&state.sessions, token) else {
        unreachable!()
    };
    // an edition is left, since the row's refusals don't apply
    let edition = next_edition(&state.stored);
    prove!(edition < u64::MAX);
    let schedule = schedule_of(schedule);
    let Ok(pin) = new_pin(
        alloc,
        &mut state.generator,
        state.cost,
        secret,
        derived,
        schedule,
    ) else {
        return Answer::NoMemory;
    };
    let ivs = new_ivs(&mut state.generator);
    let moment = state.last;
    let added = pin_edits::add_pin(
        alloc,
        &mut state.stored,
        share,
        state.account.as_str(),
        label,
        &pin,
        &main,
        &ivs,
        moment,
    );
    told(alloc, &mut state.doubt, added, Doubt::Editions)
}

/// Adds a PIN, with this schedule or with the usual one.
///
/// `derived` is derived of the secret, and used where its cost is that of new factors: its salt becomes the record's.
/// Else the key is derived with a new salt. The answers:
/// - `StorageFault` where a step failed: then editions tell whether the PIN was added.
/// - `NoMemory` before any step, or once the leaf was inserted: then it was removed again. It may stand for `Damaged`,
///   whose name takes memory.
/// - `Damaged` with the stash's name where its payload doesn't open or has 16 other reset secrets, before any step, and
///   with the new leaf's where a loaded record names it already: then it was removed again.
/// - `TreeLost` exactly where the tree of leaves was lost when the account was loaded, with its roots and no step made.
pub fn add_pin<S: Share>(
    alloc: Global,
    state: &mut UserState,
    share: &mut S,
    token: &Token,
    label: &Text,
    secret: &Text,
    schedule: Option<Schedule>,
    derived: Option<Derived>,
) -> Answer
    requires ready { IsReady state.old }
    requires sound { IsSound state.old }
    requires due { IsDue state.old (Act (AddFactor state.old.account token.now label.now Pin secret.now schedule)) }
    requires own { IsOf (S.seen share.old).owner state.old.account }
    requires lost { is_some (S.seen share.old).lost ≡ is_lost state.old }
    requires spare { 3 ≤ (S.seen share.old).spare }
    requires label { IsTrue (is_factor_label label.now) }
    requires derived { IfSome derived (λ (made : DerivedSeen). made.key ≡ derive secret.now made.salt made.cost) }
    ensures given { (account : List ℕ) → IsGiven (S.seen share.old) (S.seen share.new) state.old state.new
        (Act (AddFactor account token.now label.now Pin secret.now schedule)) result }
    ensures sound { IsSound state.new }
    ensures keeps { KeepsState state.old state.new }
    ensures ended { IsEnded IsEditions state.old state.new result }
    ensures tellable { IsTellable state.new.doubt state.new }
    ensures draws { Draws 0 26 state.old.generator state.new.generator }
    ensures fresh { IsTried result → Draws 22 26 state.old.generator state.new.generator }
    ensures cost { PutsCost (S.seen share.old) (S.seen share.new) state.old.account state.old.cost }
    ensures caused { IsPinCaused (S.seen share.old) (S.seen share.new) state.old.stored.lost
        (ComesToNothing (S.seen share.old) (S.seen share.new))
        (λ name. IsStashOrLeaf state.old.account name × ComesToNothing (S.seen share.old) (S.seen share.new)) result }
    ensures goes { S.goes share.old share.new }
{
    if let Some(tree) = &state.stored.lost {
        return Answer::TreeLost {
            host: tree.host,
            chip: tree.chip,
        };
    }
    add_held(alloc, state, share, token, label, secret, schedule, derived)
}
