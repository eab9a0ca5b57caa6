//! A PIN's count is set back.

ghost use Rattle.std.specs.Prelude.{◌≡◌, ◌≤◌, ◌<◌, ◌^◌, ℕ, List, None, IsTrue, IsSome, is_some};
ghost use Rattle.account_machine.specs.declared.request.Request.TheVariants.{ResetPin};
ghost use Rattle.account_machine.specs.declared.request.Turn.TheVariants.{Act};
ghost use Rattle.record_names.specs.Names.{is_account_name};
ghost use Rattle.share_api.specs.Conditions.{IsOf};
ghost use Rattle.pin_edits.specs.Resets.{told_reset};
ghost use Rattle.user_state.specs.Fits.{is_lost};
ghost use Rattle.user_state.specs.Sound.{IsSound, IsTellable};
ghost use Rattle.user_state.specs.Turns.{IsGiven};
ghost use Rattle.turn_rows.specs.Due.{IsReady, IsDue};
ghost use Rattle.turn_edits.specs.Endings.{KeepsState, IsEnded, doubt_of};
ghost use Rattle.turn_pins.specs.Endings.{TellsTree};
ghost use Rattle.turn_pins.specs.Looking.{IsLeafDoubt};
ghost use Rattle.turn_pins.specs.Resetting.{IsToldAnswer, ResetEnds, ResetHeld, ResetsLeaf};

use crate::keys::main_key;
use crate::looking::{damaged, fault_told, look, refused};
use crate::reset::{Reset, prepare};
use account_machine::{Answer, Token};
use ct_bytes::Text;
use record_names::RecordName;
use share_api::{LeafView, Share, ShareFault};
use std::alloc::Global;
use stored_home::StoreFault;
use user_state::{Doubt, UserState};

// How the reset of a leaf ended: one that doesn't take the secret damages the PIN's record.
fn ended(tried: Result<bool, ShareFault>, name: RecordName) -> Result<(), StoreFault>
    ensures value { result ≡ told_reset name tried }
{
    match tried {
        Ok(true) => Ok(()),
        Ok(false) => Err(StoreFault::Damaged(name)),
        Err(fault) => Err(fault_told(fault)),
    }
}

/// Answers a step on a leaf. After a fault what the leaf showed is kept.
pub(crate) fn told(
    alloc: Global,
    kept: &mut Option<Doubt>,
    edit: Result<(), StoreFault>,
    doubt: Doubt,
) -> Answer
    ensures answer { IsToldAnswer edit result }
    ensures doubt { kept.new ≡ doubt_of doubt kept.old edit }
{
    match edit {
        Ok(()) => Answer::Ok,
        Err(StoreFault::Failed) => {
            *kept = Some(doubt);
            Answer::StorageFault
        }
        Err(fault) => refused(alloc, fault),
    }
}

// Resets a leaf that showed this.
fn reset_seen<S: Share>(
    alloc: Global,
    state: &mut UserState,
    share: &mut S,
    reset: Reset,
    view: LeafView,
) -> Answer
    requires spare { 1 ≤ (S.seen share.old).spare }
    requires moment { state.old.last < 2 ^ 40 }
    ensures ends { ResetEnds (S.seen share.old) (S.seen share.new) reset view state.old state.new result }
    ensures goes { S.goes share.old share.new }
{
    let Reset {
        label,
        tree,
        secret,
        name,
    } = reset;
    let tried = share.reset_leaf(tree, &secret, state.last);
    let doubt = Doubt::Leaf { label, tree, view };
    told(alloc, &mut state.doubt, ended(tried, name), doubt)
}

/// Looks at the leaf, and resets it.
pub(crate) fn reset_held<S: Share>(
    alloc: Global,
    state: &mut UserState,
    share: &mut S,
    reset: Reset,
) -> Answer
    requires plain { IsTrue (is_account_name state.old.account) }
    requires spare { 2 ≤ (S.seen share.old).spare }
    requires moment { state.old.last < 2 ^ 40 }
    requires whole { (S.seen share.old).lost ≡ None }
    ensures held { ResetHeld (S.seen share.old) (S.seen share.new) reset state.old state.new result }
    ensures goes { S.goes share.old share.new }
{
    match look(share, state.account.as_str(), reset.tree) {
        Ok(view) => reset_seen(alloc, state, share, reset, view),
        Err(fault) => refused(alloc, fault),
    }
}

/// Sets a PIN's count back.
///
/// The leaf is looked at and then reset, in two device steps. `StorageFault` where the reset failed: then what the leaf
/// showed is kept, which tells whether it was reset. `NoMemory` before the reset, also where the look failed. `Damaged`
/// with the stash's name where its payload doesn't open or lacks the PIN's reset secret, with the leaf's, and with the
/// record's where the leaf has another reset secret. `TreeLost` exactly where the tree of leaves was lost when the
/// account was loaded, with its roots and no step made.
pub fn reset_pin<S: Share>(
    alloc: Global,
    state: &mut UserState,
    share: &mut S,
    token: &Token,
    label: &Text,
) -> Answer
    requires ready { IsReady state.old }
    requires sound { IsSound state.old }
    requires due { IsDue state.old (Act (ResetPin state.old.account token.now label.now)) }
    requires own { IsOf (S.seen share.old).owner state.old.account }
    requires lost { is_some (S.seen share.old).lost ≡ is_lost state.old }
    requires spare { 2 ≤ (S.seen share.old).spare }
    ensures given { (account : List ℕ) → IsGiven (S.seen share.old) (S.seen share.new) state.old state.new
        (Act (ResetPin account token.now label.now)) result }
    ensures sound { IsSound state.new }
    ensures keeps { KeepsState state.old state.new }
    ensures ended { IsEnded (IsLeafDoubt label.now) state.old state.new result }
    ensures tellable { IsTellable state.new.doubt state.new }
    ensures generator { state.new.generator ≡ state.old.generator }
    ensures stored { state.new.stored ≡ state.old.stored }
    ensures resets { state.old.stored.lost ≡ None → ResetsLeaf (S.seen share.old) (S.seen share.new) token.now label.now
        state.old state.new result }
    ensures tree { TellsTree state.old.stored.lost result }
    ensures still { IsSome state.old.stored.lost → S.seen share.new ≡ S.seen share.old }
    ensures goes { S.goes share.old share.new }
{
    if let Some(tree) = &state.stored.lost {
        return Answer::TreeLost {
            host: tree.host,
            chip: tree.chip,
        };
    }
    let Some(main) = main_key(&state.sessions, token) else {
        unreachable!()
    };
    match prepare(&state.stored, state.account.as_str(), label, &main) {
        Ok(reset) => reset_held(alloc, state, share, reset),
        Err(fault) => refused(alloc, fault),
    }
}
