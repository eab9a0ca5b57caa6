//! Looks, and refusals.

ghost use Rattle.std.specs.Prelude.{◌≡◌, ℕ, List, IfSome, IfNone, None, option_map};
ghost use Rattle.account_machine.specs.Answers.{answer_of};
ghost use Rattle.account_machine.specs.Row.{first_refusal, turn_refusals};
ghost use Rattle.account_machine.specs.declared.answer.Answer.TheVariants as answers;
ghost use Rattle.account_machine.specs.declared.request.Turn.TheVariants.{Look};
ghost use Rattle.random_values.specs.Stretches.{moved};
ghost use Rattle.share_api.specs.Seen.{ShareSeen};
ghost use Rattle.user_state.specs.Outlines.{outline_in};
ghost use Rattle.user_state.specs.Turns.{IsGiven};
ghost use Rattle.turn_rows.specs.Due.{IsReady, IsDue};
ghost use Rattle.turn_rows.specs.Looks.{seen_of};

use account_machine::{Answer, Turn, turn_refusal};
use ct_bytes::Text;
use user_state::{Seen, UserState};

/// The answer that refuses a turn, and `None` where no refusal applies.
pub fn refuse(state: &UserState, turn: &Turn) -> Option<Answer>
    requires ready { IsReady state.now }
    ensures refused { IfSome result (λ answer. (share : ShareSeen)
        → IsGiven share share state.now state.now turn.now answer) }
    ensures due { IfNone result (IsDue state.now turn.now) }
    ensures exact { result ≡ option_map answer_of
        (first_refusal (turn_refusals (outline_in state.now) turn.now state.now.last)) }
{
    match turn_refusal(state, turn, state.last) {
        Some(refused) => Some(refused.answer()),
        None => None,
    }
}

/// Shows the edition, the salt and the cost of a label's factor, and a new salt.
pub fn look(state: &mut UserState, label: &Text) -> Seen
    requires ready { IsReady state.old }
    ensures given { (share : ShareSeen)
        → IsGiven share share state.old state.new (Look label.now) (answers.Seen result.edition) }
    ensures seen { result ≡ seen_of state.old label.now }
    ensures same { state.new ≡ record state.old { generator = moved state.old.generator 4 } }
{
    let fresh = state.generator.salt();
    match state.stored.factors.get(label) {
        Some(row) => Seen {
            edition: Some(row.edition),
            salt: row.salt,
            cost: row.cost,
            fresh,
        },
        None => Seen {
            edition: None,
            salt: fresh,
            cost: state.cost,
            fresh,
        },
    }
}
