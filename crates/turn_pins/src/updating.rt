//! A PIN gets another secret.

ghost use Rattle.std.specs.Prelude.{◌≡◌, ◌≤◌, ◌<◌, ◌+◌, ℕ, List, None, Some, IfOk, IfErr, IfSome, IsOk, IsErrOf, IsSome, IsSomeAnd, IsTrue, is_some};
ghost use Rattle.std.specs.FinMap.{get};
ghost use Rattle.account_machine.specs.declared.request.Request.TheVariants.{UpdateFactor};
ghost use Rattle.account_machine.specs.declared.request.Turn.TheVariants.{Act};
ghost use Rattle.factor_files.specs.declared.factor.FactorRecord.{FactorRecord as RowSeen};
ghost use Rattle.home_edits.specs.Costs.{PutsCost};
ghost use Rattle.pin_edits.specs.Faults.{IsStashOrLeaf};
ghost use Rattle.pin_edits.specs.declared.pin_stash.NewPin.{NewPin as PinSeen};
ghost use Rattle.record_names.specs.Names.{is_account_name};
ghost use Rattle.scrypt_kdf.specs.Derive.{derive};
ghost use Rattle.share_api.specs.Conditions.{IsOf};
ghost use Rattle.stored_home.specs.declared.derived.Derived.{Derived as DerivedSeen};
ghost use Rattle.user_state.specs.Fits.{is_lost};
ghost use Rattle.user_state.specs.Sound.{IsSound, IsTellable};
ghost use Rattle.user_state.specs.Turns.{IsGiven};
ghost use Rattle.turn_rows.specs.Due.{IsReady, IsDue};
ghost use Rattle.turn_edits.specs.Endings.{KeepsState, IsEnded, IsEditions, Draws, IsTried, MadeFailed};
ghost use Rattle.turn_secrets.specs.Listing.{Looks};
ghost use Rattle.turn_pins.specs.Endings.{IsPinCaused};
ghost use Rattle.turn_pins.specs.Pins.{IsPinAt};
ghost use Rattle.turn_pins.specs.Setting.{TellsSchedule, IsRenewFault, OnlyReads};

use crate::keys::main_key;
use crate::looking::{look, refused};
use crate::new_pin::{new_ivs, new_pin, next_edition};
use crate::resetting::told;
use account_machine::{Answer, Token};
use ct_bytes::Text;
use factor_files::FactorRecord;
use name_map::NameMap;
use pin_edits::NewPin;
use pw_path::Label;
use random_values::Generator;
use share_api::Share;
use std::alloc::Global;
use stored_home::{Derived, StoreFault};
use user_state::{Doubt, UserState};

// The label of a PIN's leaf.
fn leaf_of(rows: &NameMap<FactorRecord>, label: &Text) -> Label
    requires known { IsSomeAnd (get rows.now label.now) (λ row. IsSome row.leaf) }
    ensures value { (row : RowSeen) → get rows.now label.now ≡ Some row → row.leaf ≡ Some result }
{
    let Some(row) = rows.get(label) else {
        unreachable!()
    };
    let Some(tree) = row.leaf else { unreachable!() };
    tree
}

// A new PIN with the schedule of the leaf at this label, which is looked at.
fn renewed<S: Share>(
    alloc: Global,
    generator: &mut Generator,
    cost: u8,
    share: &mut S,
    account: &str,
    tree: Label,
    secret: &Text,
    derived: Option<Derived>,
) -> Result<NewPin, StoreFault>
    requires plain { IsTrue (is_account_name account.now) }
    requires spare { 1 ≤ (S.seen share.old).spare }
    requires whole { (S.seen share.old).lost ≡ None }
    requires least { 1 ≤ cost }
    requires most { cost ≤ 16 }
    requires derived { IfSome derived (λ (made : DerivedSeen). made.key ≡ derive secret.now made.salt made.cost) }
    ensures looks { Looks (S.seen share.old) (S.seen share.new) (IsErrOf result StoreFault.Failed) 1
        (TellsSchedule tree result) }
    ensures quiet { IsOk result → MadeFailed (S.seen share.old) (S.seen share.new) → ⊥ }
    ensures only { IfErr result (IsRenewFault account.now tree) }
    ensures cost { IfOk result (λ (pin : PinSeen). pin.derived.cost ≡ cost) }
    ensures key { IfOk result (λ (pin : PinSeen). pin.derived.key
        ≡ derive secret.now pin.derived.salt pin.derived.cost) }
    ensures draws { Draws 0 20 generator.old generator.new }
    ensures fresh { IsOk result → Draws 16 20 generator.old generator.new }
    ensures spare { (S.seen share.old).spare ≤ (S.seen share.new).spare + 1 }
    ensures whole { (S.seen share.new).lost ≡ None }
    ensures goes { S.goes share.old share.new }
{
    let view = look(share, account, tree)?;
    let pin = new_pin(alloc, generator, cost, secret, derived, view.schedule)?;
    Ok(pin)
}

// Gives a PIN another secret where the tree isn't lost.
fn update_held<S: Share>(
    alloc: Global,
    state: &mut UserState,
    share: &mut S,
    token: &Token,
    label: &Text,
    secret: &Text,
    derived: Option<Derived>,
) -> Answer
    requires ready { IsReady state.old }
    requires sound { IsSound state.old }
    requires due { IsDue state.old (Act (UpdateFactor state.old.account token.now label.now secret.now)) }
    requires pin { IsPinAt state.old.stored label.now }
    requires own { IsOf (S.seen share.old).owner state.old.account }
    requires lost { is_some (S.seen share.old).lost ≡ is_lost state.old }
    requires whole { state.old.stored.lost ≡ None }
    requires found { (S.seen share.old).lost ≡ None }
    requires spare { 6 ≤ (S.seen share.old).spare }
    requires derived { IfSome derived (λ (made : DerivedSeen). made.key ≡ derive secret.now made.salt made.cost) }
    ensures given { (account : List ℕ) → IsGiven (S.seen share.old) (S.seen share.new) state.old state.new
        (Act (UpdateFactor account token.now label.now secret.now)) result }
    ensures sound { IsSound state.new }
    ensures keeps { KeepsState state.old state.new }
    ensures ended { IsEnded IsEditions state.old state.new result }
    ensures tellable { IsTellable state.new.doubt state.new }
    ensures draws { Draws 0 26 state.old.generator state.new.generator }
    ensures fresh { IsTried result → Draws 22 26 state.old.generator state.new.generator }
    ensures cost { PutsCost (S.seen share.old) (S.seen share.new) state.old.account state.old.cost }
    ensures caused { IsPinCaused (S.seen share.old) (S.seen share.new) state.old.stored.lost
        (OnlyReads (S.seen share.old) (S.seen share.new))
        (λ name. IsStashOrLeaf state.old.account name × OnlyReads (S.seen share.old) (S.seen share.new)) result }
    ensures goes { S.goes share.old share.new }
{
    let Some(main) = main_key(&state.sessions, token) else {
        unreachable!()
    };
    // an edition is left, since the row's refusals don't apply
    let edition = next_edition(&state.stored);
    prove!(edition < u64::MAX);
    let tree = leaf_of(&state.stored.factors, label);
    match renewed(
        alloc,
        &mut state.generator,
        state.cost,
        share,
        state.account.as_str(),
        tree,
        secret,
        derived,
    ) {
        Ok(pin) => {
            let ivs = new_ivs(&mut state.generator);
            let moment = state.last;
            let updated = pin_edits::update_pin(
                alloc,
                &mut state.stored,
                share,
                state.account.as_str(),
                label,
                &pin,
                &main,
                &ivs,
                moment,
            );
            told(alloc, &mut state.doubt, updated, Doubt::Editions)
        }
        Err(fault) => refused(alloc, fault),
    }
}

/// Gives a factor that is a PIN another secret, under the schedule that it has.
///
/// The leaf is looked at first, since it alone has the schedule. `derived` is derived of the new secret, and used where
/// its cost is that of new factors: its salt becomes the record's. Else the key is derived with a new salt. The answers:
/// - `StorageFault` where a step of the edit failed: then editions tell whether the PIN has the new secret.
/// - `NoMemory` before any step that changes something, also where the look failed, or once the new leaf was inserted:
///   then it was removed again. It may stand for `Damaged`, whose name takes memory.
/// - `Damaged` with the leaf's name where the PIN's leaf isn't there, with the stash's where its payload doesn't open or
///   has 16 other reset secrets, and with the new leaf's where a loaded record names it already: then it was removed
///   again.
/// - `TreeLost` exactly where the tree of leaves was lost when the account was loaded, with its roots and no step made.
pub fn update_pin<S: Share>(
    alloc: Global,
    state: &mut UserState,
    share: &mut S,
    token: &Token,
    label: &Text,
    secret: &Text,
    derived: Option<Derived>,
) -> Answer
    requires ready { IsReady state.old }
    requires sound { IsSound state.old }
    requires due { IsDue state.old (Act (UpdateFactor state.old.account token.now label.now secret.now)) }
    requires pin { IsPinAt state.old.stored label.now }
    requires own { IsOf (S.seen share.old).owner state.old.account }
    requires lost { is_some (S.seen share.old).lost ≡ is_lost state.old }
    requires spare { 6 ≤ (S.seen share.old).spare }
    requires derived { IfSome derived (λ (made : DerivedSeen). made.key ≡ derive secret.now made.salt made.cost) }
    ensures given { (account : List ℕ) → IsGiven (S.seen share.old) (S.seen share.new) state.old state.new
        (Act (UpdateFactor account token.now label.now secret.now)) result }
    ensures sound { IsSound state.new }
    ensures keeps { KeepsState state.old state.new }
    ensures ended { IsEnded IsEditions state.old state.new result }
    ensures tellable { IsTellable state.new.doubt state.new }
    ensures draws { Draws 0 26 state.old.generator state.new.generator }
    ensures fresh { IsTried result → Draws 22 26 state.old.generator state.new.generator }
    ensures cost { PutsCost (S.seen share.old) (S.seen share.new) state.old.account state.old.cost }
    ensures caused { IsPinCaused (S.seen share.old) (S.seen share.new) state.old.stored.lost
        (OnlyReads (S.seen share.old) (S.seen share.new))
        (λ name. IsStashOrLeaf state.old.account name × OnlyReads (S.seen share.old) (S.seen share.new)) result }
    ensures goes { S.goes share.old share.new }
{
    if let Some(tree) = &state.stored.lost {
        return Answer::TreeLost {
            host: tree.host,
            chip: tree.chip,
        };
    }
    update_held(alloc, state, share, token, label, secret, derived)
}
