//! A PIN is tried.

ghost use Rattle.std.specs.Prelude.{◌≡◌, ◌≤◌, ◌<◌, ◌^◌, ℕ, List, length, IfSome, IsSome, IsTrue, None, Ok, is_some, option_copied};
ghost use Rattle.account_machine.specs.declared.request.Request.TheVariants.{Authenticate};
ghost use Rattle.account_machine.specs.declared.request.Turn.TheVariants.{Act};
ghost use Rattle.record_names.specs.Names.{is_account_name};
ghost use Rattle.sealed_text.specs.OpeningSealed.{opened};
ghost use Rattle.secret_stash.specs.Keys.{pin_wrap};
ghost use Rattle.share_api.specs.Conditions.{IsOf};
ghost use Rattle.stash_format.specs.Forms.{main_of};
ghost use Rattle.user_state.specs.Fits.{is_lost};
ghost use Rattle.user_state.specs.Sound.{IsSound, IsTellable};
ghost use Rattle.user_state.specs.Turns.{IsGiven};
ghost use Rattle.turn_rows.specs.Due.{IsReady, IsDue};
ghost use Rattle.turn_edits.specs.Endings.{KeepsState, IsEnded};
ghost use Rattle.turn_secrets.specs.Checked.{IsOfSecret};
ghost use Rattle.turn_pins.specs.Endings.{TellsTree};
ghost use Rattle.turn_pins.specs.Looking.{IsLeafDoubt};
ghost use Rattle.turn_pins.specs.Pins.{IsPinAt};
ghost use Rattle.turn_pins.specs.Trying.{RightEnds, TriedEnds, TryEnds, TryHeld, TriesLeaf};

use crate::looking::{damaged, fault_told, look, refused};
use crate::resetting::told;
use crate::trial::{Trial, open, prepare};
use account_machine::{Answer, Token};
use ct_bytes::{NoMemory, Text};
use home_edits::wrap_of;
use pw_path::Hash;
use record_names::RecordName;
use secret_stash::pin_wrap;
use share_api::{LeafView, Share, ShareFault, TryAnswer};
use std::alloc::Global;
use stored_home::Derived;
use user_state::{Doubt, UserState};

// Authenticates the session there with the main key that the PIN's block opens to. Where it doesn't open the stash is
// damaged.
fn right(alloc: Global, state: &mut UserState, at: usize, trial: &Trial, high: &Hash) -> Answer
    requires plain { IsTrue (is_account_name state.old.account) }
    requires moment { state.old.last < 2 ^ 40 }
    requires inside { at < length state.old.sessions.kept }
    requires extra { length trial.now.extra < 1024 }
    ensures { RightEnds (opened (pin_wrap high.now trial.now.key) trial.now.extra (main_of trial.now.block)) at
        state.old state.new result }
{
    let wrap = pin_wrap(high, &trial.key);
    match open(&trial.block, trial.extra.as_slice(), &wrap) {
        Some(main) => Answer::OkEnds(state.sessions.prove(at, main, state.last)),
        None => damaged(alloc, &RecordName::stash(state.account.as_str())),
    }
}

// Ends the turn by what the leaf answered.
fn answered(
    alloc: Global,
    state: &mut UserState,
    at: usize,
    trial: &Trial,
    view: LeafView,
    answer: TryAnswer,
) -> Answer
    requires plain { IsTrue (is_account_name state.old.account) }
    requires moment { state.old.last < 2 ^ 40 }
    requires inside { at < length state.old.sessions.kept }
    requires extra { length trial.now.extra < 1024 }
    ensures { TriedEnds (Ok answer) trial.now view at state.old state.new result }
{
    let _ = view;
    match answer {
        TryAnswer::Right(high) => right(alloc, state, at, trial, &high),
        TryAnswer::Wrong => Answer::Wrong,
        TryAnswer::Delayed(until) => Answer::Delayed(until.saturating_sub(state.last)),
        TryAnswer::Locked => Answer::Locked,
    }
}

// Ends the turn by what the try of the leaf answered, or by its fault.
fn tried(
    alloc: Global,
    state: &mut UserState,
    at: usize,
    trial: Trial,
    view: LeafView,
    tried: Result<TryAnswer, ShareFault>,
) -> Answer
    requires plain { IsTrue (is_account_name state.old.account) }
    requires moment { state.old.last < 2 ^ 40 }
    requires inside { at < length state.old.sessions.kept }
    requires extra { length trial.extra < 1024 }
    requires settled { state.old.doubt ≡ None }
    ensures { TriedEnds tried trial view at state.old state.new result }
{
    match tried {
        Ok(answer) => answered(alloc, state, at, &trial, view, answer),
        Err(fault) => {
            let Trial { label, tree, .. } = trial;
            let doubt = Doubt::Leaf { label, tree, view };
            told(alloc, &mut state.doubt, Err(fault_told(fault)), doubt)
        }
    }
}

// Tries a leaf that showed this.
fn try_seen<S: Share>(
    alloc: Global,
    state: &mut UserState,
    share: &mut S,
    at: usize,
    trial: Trial,
    view: LeafView,
) -> Answer
    requires plain { IsTrue (is_account_name state.old.account) }
    requires spare { 1 ≤ (S.seen share.old).spare }
    requires moment { state.old.last < 2 ^ 40 }
    requires inside { at < length state.old.sessions.kept }
    requires extra { length trial.extra < 1024 }
    requires settled { state.old.doubt ≡ None }
    ensures ends { TryEnds (S.seen share.old) (S.seen share.new) trial view at state.old state.new result }
    ensures goes { S.goes share.old share.new }
{
    let answer = share.try_leaf(trial.tree, &wrap_of(&trial.key), state.last);
    tried(alloc, state, at, trial, view, answer)
}

// Looks at the leaf, and tries it.
fn try_held<S: Share>(
    alloc: Global,
    state: &mut UserState,
    share: &mut S,
    at: usize,
    trial: Trial,
) -> Answer
    requires plain { IsTrue (is_account_name state.old.account) }
    requires spare { 2 ≤ (S.seen share.old).spare }
    requires moment { state.old.last < 2 ^ 40 }
    requires whole { (S.seen share.old).lost ≡ None }
    requires inside { at < length state.old.sessions.kept }
    requires extra { length trial.extra < 1024 }
    requires settled { state.old.doubt ≡ None }
    ensures held { TryHeld (S.seen share.old) (S.seen share.new) trial at state.old state.new result }
    ensures goes { S.goes share.old share.new }
{
    match look(share, state.account.as_str(), trial.tree) {
        Ok(view) => try_seen(alloc, state, share, at, trial, view),
        Err(fault) => refused(alloc, fault),
    }
}

/// Tries a PIN in the token's session.
///
/// A derived key is used where its salt and its cost are those of the PIN's record; else the key is derived here. The
/// leaf is looked at and then tried, in two device steps. The answers:
/// - `Wrong`, `Delayed` with the seconds that are left, and `Locked` as the leaf answered. After a wrong secret the
///   PIN's count is one higher.
/// - `OkEnds` with the session's end where the leaf took the secret, and the PIN's block opens: the session keeps the
///   main key.
/// - `StorageFault` where the try failed: then what the leaf showed is kept, which tells whether it was tried.
/// - `NoMemory` before the try, also where the look failed.
/// - `Damaged` with the leaf's name, and with the stash's where the PIN's block doesn't open though the leaf took the
///   secret. Want of memory may stand for it, since the name takes memory.
/// - `TreeLost` exactly where the tree of leaves was lost when the account was loaded, with its roots and no step made.
pub fn authenticate_pin<S: Share>(
    alloc: Global,
    state: &mut UserState,
    share: &mut S,
    token: &Token,
    label: &Text,
    secret: &Text,
    derived: Option<&Derived>,
) -> Answer
    requires ready { IsReady state.old }
    requires sound { IsSound state.old }
    requires due { IsDue state.old (Act (Authenticate state.old.account token.now label.now secret.now)) }
    requires pin { IsPinAt state.old.stored label.now }
    requires own { IsOf (S.seen share.old).owner state.old.account }
    requires lost { is_some (S.seen share.old).lost ≡ is_lost state.old }
    requires spare { 2 ≤ (S.seen share.old).spare }
    requires derived { IfSome (option_copied derived) (IsOfSecret secret.now) }
    ensures given { (account : List ℕ) → IsGiven (S.seen share.old) (S.seen share.new) state.old state.new
        (Act (Authenticate account token.now label.now secret.now)) result }
    ensures sound { IsSound state.new }
    ensures keeps { KeepsState state.old state.new }
    ensures ended { IsEnded (IsLeafDoubt label.now) state.old state.new result }
    ensures tellable { IsTellable state.new.doubt state.new }
    ensures generator { state.new.generator ≡ state.old.generator }
    ensures stored { state.new.stored ≡ state.old.stored }
    ensures tries { state.old.stored.lost ≡ None → TriesLeaf (S.seen share.old) (S.seen share.new) token.now label.now
        secret.now state.old state.new result }
    ensures tree { TellsTree state.old.stored.lost result }
    ensures still { IsSome state.old.stored.lost → S.seen share.new ≡ S.seen share.old }
    ensures goes { S.goes share.old share.new }
{
    if let Some(tree) = &state.stored.lost {
        return Answer::TreeLost {
            host: tree.host,
            chip: tree.chip,
        };
    }
    let Some(at) = state.sessions.place(token) else {
        unreachable!()
    };
    match prepare(alloc, &state.stored, label, secret, derived) {
        Ok(trial) => try_held(alloc, state, share, at, trial),
        Err(NoMemory) => Answer::NoMemory,
    }
}
