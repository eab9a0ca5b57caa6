//! A PIN is removed.

ghost use Rattle.std.specs.Prelude.{◌≡◌, ◌≤◌, ℕ, List, is_some};
ghost use Rattle.account_machine.specs.declared.request.Request.TheVariants.{RemoveFactor};
ghost use Rattle.account_machine.specs.declared.request.Turn.TheVariants.{Act};
ghost use Rattle.home_edits.specs.Costs.{PutsCost};
ghost use Rattle.share_api.specs.Conditions.{IsOf};
ghost use Rattle.user_state.specs.Fits.{is_lost};
ghost use Rattle.user_state.specs.Sound.{IsSound, IsTellable};
ghost use Rattle.user_state.specs.Turns.{IsGiven};
ghost use Rattle.turn_rows.specs.Due.{IsReady, IsDue};
ghost use Rattle.turn_edits.specs.Endings.{KeepsState, IsEnded, IsEditions};
ghost use Rattle.turn_pins.specs.Endings.{IsPinCaused};
ghost use Rattle.turn_pins.specs.Pins.{IsPinAt};

use crate::ending::told;
use account_machine::{Answer, Token};
use ct_bytes::Text;
use share_api::Share;
use user_state::UserState;

/// Removes a factor that is a PIN, with its leaf.
///
/// `StorageFault` where a step failed, `NoMemory` before any step, and `TreeLost` exactly where the tree of leaves was
/// lost when the account was loaded, with its roots and no step made.
pub fn remove_pin<S: Share>(
    state: &mut UserState,
    share: &mut S,
    token: &Token,
    label: &Text,
) -> Answer
    requires ready { IsReady state.old }
    requires sound { IsSound state.old }
    requires due { IsDue state.old (Act (RemoveFactor state.old.account token.now label.now)) }
    requires own { IsOf (S.seen share.old).owner state.old.account }
    requires lost { is_some (S.seen share.old).lost ≡ is_lost state.old }
    requires spare { 3 ≤ (S.seen share.old).spare }
    requires pin { IsPinAt state.old.stored label.now }
    ensures given { (account : List ℕ) → IsGiven (S.seen share.old) (S.seen share.new) state.old state.new
        (Act (RemoveFactor account token.now label.now)) result }
    ensures sound { IsSound state.new }
    ensures keeps { KeepsState state.old state.new }
    ensures ended { IsEnded IsEditions state.old state.new result }
    ensures tellable { IsTellable state.new.doubt state.new }
    ensures generator { state.new.generator ≡ state.old.generator }
    ensures cost { PutsCost (S.seen share.old) (S.seen share.new) state.old.account state.old.cost }
    ensures caused { IsPinCaused (S.seen share.old) (S.seen share.new) state.old.stored.lost
        (S.seen share.new ≡ S.seen share.old) (λ name. ⊥) result }
    ensures goes { S.goes share.old share.new }
{
    let _ = token;
    let moment = state.last;
    let removed = pin_edits::remove_pin(
        &mut state.stored,
        share,
        state.account.as_str(),
        label,
        moment,
    );
    told(&mut state.doubt, removed)
}
