//! A home is made.

ghost use Rattle.std.specs.Prelude.{◌≡◌, ◌≤◌, ℕ, List, is_some};
ghost use Rattle.account_machine.specs.declared.request.Request.TheVariants.{Create};
ghost use Rattle.account_machine.specs.declared.request.Turn.TheVariants.{Act};
ghost use Rattle.home_edits.specs.Costs.{PutsCost};
ghost use Rattle.share_api.specs.Conditions.{IsOf};
ghost use Rattle.user_state.specs.Fits.{is_lost};
ghost use Rattle.user_state.specs.Sound.{IsSound};
ghost use Rattle.user_state.specs.Turns.{IsGiven};
ghost use Rattle.turn_rows.specs.Due.{IsReady, IsDue};
ghost use Rattle.turn_edits.specs.Endings.{KeepsState, IsEnded, IsEditions, Draws, IsCaused};

use crate::ending::told;
use account_machine::Answer;
use share_api::Share;
use std::alloc::Global;
use user_state::{Doubt, UserState};

/// Makes a home without factors.
///
/// `StorageFault` where its step failed, and `NoMemory` before any step.
pub fn create<S: Share>(alloc: Global, state: &mut UserState, share: &mut S) -> Answer
    requires ready { IsReady state.old }
    requires sound { IsSound state.old }
    requires due { IsDue state.old (Act (Create state.old.account)) }
    requires own { IsOf (S.seen share.old).owner state.old.account }
    requires lost { is_some (S.seen share.old).lost ≡ is_lost state.old }
    requires spare { 1 ≤ (S.seen share.old).spare }
    ensures given { (account : List ℕ)
        → IsGiven (S.seen share.old) (S.seen share.new) state.old state.new (Act (Create account)) result }
    ensures sound { IsSound state.new }
    ensures keeps { KeepsState state.old state.new }
    ensures ended { IsEnded IsEditions state.old state.new result }
    ensures draws { Draws 0 0 state.old.generator state.new.generator }
    ensures cost { PutsCost (S.seen share.old) (S.seen share.new) state.old.account state.old.cost }
    ensures caused { IsCaused (S.seen share.old) (S.seen share.new) state.old.account ⊥ result }
    ensures goes { S.goes share.old share.new }
{
    let made = home_edits::create(alloc, &mut state.stored, share, state.account.as_str());
    told(&mut state.doubt, made, Doubt::Editions)
}
