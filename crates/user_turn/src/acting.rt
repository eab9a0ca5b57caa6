//! One turn of an account.

ghost use Rattle.std.specs.Prelude.{◌≡◌, ◌<◌, ◌^◌, ℕ, max, None, IfSome, is_some};
ghost use Rattle.home_recovery.specs.Told.{lost_tree};
ghost use Rattle.account_machine.specs.declared.request.Turn.TheVariants.{Clear};
ghost use Rattle.share_api.specs.Conditions.{IsOf};
ghost use Rattle.share_api.specs.Seen.{ShareSeen};
ghost use Rattle.user_state.specs.Fits.{is_lost};
ghost use Rattle.user_state.specs.Turns.{secret_of};
ghost use Rattle.turn_rows.specs.Due.{IsReady, IsDue};
ghost use Rattle.request_forms.specs.Formed.{IsFormed};
ghost use Rattle.user_turn.specs.Acts.{GivenOver, IsTurn, IsAct, IsDerivedOf, IsFaultAnswer, IsMade, IsSteady, RestsOn, ShowsFactor, entry_by};

use crate::rows::request_row;
use account_machine::{Answer, Outlined, Token, Told, Turn};
use ct_bytes::{NoMemory, Text};
use share_api::Share;
use std::alloc::Global;
use stored_home::{Derived, StoreFault};
use turn_reload::reload;
use turn_rows::{look, refuse};
use user_state::{Seen, UserState};

/// How a turn ended.
#[derive(Drop)]
pub struct Acted {
    /// What the reload at its start told.
    pub told: Told,
    pub answer: Answer,
    /// What a look shows.
    pub seen: Option<Seen>,
}

// A turn of a settled account that no refusal applies to.
fn due_act<S: Share>(
    alloc: Global,
    state: &mut UserState,
    share: &mut S,
    turn: &Turn,
    derived: Option<Derived>,
) -> (Answer, Option<Seen>)
    requires steady { IsSteady state.old }
    requires settled { state.old.doubt ≡ None }
    requires due { IsDue state.old turn.now }
    requires own { IsOf (S.seen share.old).owner state.old.account }
    requires lost { is_some (S.seen share.old).lost ≡ is_lost state.old }
    requires formed { IsFormed turn.now }
    requires derived { IfSome derived (IsDerivedOf (secret_of turn.now)) }
    ensures given { GivenOver (S.seen share.old) (S.seen share.new) state.old state.new turn.now result.0 }
    ensures rests { RestsOn state.old state.new }
    ensures seen { IfSome result.1 (ShowsFactor state.new turn.now result.0) }
    ensures goes { S.goes share.old share.new }
{
    match turn {
        Turn::Look(label) => {
            let seen = look(state, label);
            (Answer::Seen(seen.edition), Some(seen))
        }
        Turn::Act(request) => (request_row(alloc, state, share, request, derived), None),
        Turn::Clear(token) => (clear(state, token), None),
    }
}

// A clearing, where no factor is a PIN. Else it isn't built: it answers that there was no memory.
fn clear(state: &UserState, token: &Token) -> Answer
    requires ready { IsReady state.now }
    requires due { IsDue state.now (Clear token.now) }
    ensures made { (share : ShareSeen) → IsMade share share state.now state.now (Clear token.now) result }
{
    if state.pins() == 0 {
        Answer::PinsClear
    } else {
        Answer::NoMemory
    }
}

// A turn of a settled account.
fn settled_act<S: Share>(
    alloc: Global,
    state: &mut UserState,
    share: &mut S,
    turn: &Turn,
    derived: Option<Derived>,
) -> (Answer, Option<Seen>)
    requires steady { IsSteady state.old }
    requires settled { state.old.doubt ≡ None }
    requires own { IsOf (S.seen share.old).owner state.old.account }
    requires lost { is_some (S.seen share.old).lost ≡ is_lost state.old }
    requires formed { IsFormed turn.now }
    requires derived { IfSome derived (IsDerivedOf (secret_of turn.now)) }
    ensures given { GivenOver (S.seen share.old) (S.seen share.new) state.old state.new turn.now result.0 }
    ensures rests { RestsOn state.old state.new }
    ensures seen { IfSome result.1 (ShowsFactor state.new turn.now result.0) }
    ensures goes { S.goes share.old share.new }
{
    match refuse(state, turn) {
        Some(answer) => (answer, None),
        None => due_act(alloc, state, share, turn, derived),
    }
}

// How a reload's fault is answered.
fn fault_answer(alloc: Global, fault: StoreFault) -> Answer
    ensures { IsFaultAnswer fault result }
{
    match fault {
        StoreFault::Failed => Answer::StorageFault,
        StoreFault::Damaged(name) => match Text::from_str(alloc, name.as_str()) {
            Ok(name) => Answer::Damaged(name),
            Err(NoMemory) => Answer::NoMemory,
        },
        StoreFault::NoMemory | StoreFault::TreeLost { .. } => Answer::NoMemory,
    }
}

// A turn at the account's last moment.
fn timely_act<S: Share>(
    alloc: Global,
    state: &mut UserState,
    share: &mut S,
    turn: &Turn,
    derived: Option<Derived>,
) -> Acted
    requires steady { IsSteady state.old }
    requires own { IsOf (S.seen share.old).owner state.old.account }
    requires lost { state.old.stored.lost ≡ lost_tree (S.seen share.old).lost }
    requires formed { IsFormed turn.now }
    requires derived { IfSome derived (IsDerivedOf (secret_of turn.now)) }
    ensures turn { IsTurn (S.seen share.old) (S.seen share.new) state.old state.new turn.now result.told result.answer }
    ensures rests { RestsOn state.old state.new }
    ensures seen { IfSome result.seen (ShowsFactor state.new turn.now result.answer) }
    ensures goes { S.goes share.old share.new }
{
    if state.doubt.is_none() {
        let (answer, seen) = settled_act(alloc, state, share, turn, derived);
        return Acted {
            told: Told::Settled,
            answer,
            seen,
        };
    }
    match reload(alloc, state, share) {
        Ok(told) => {
            let (answer, seen) = settled_act(alloc, state, share, turn, derived);
            Acted { told, answer, seen }
        }
        Err(fault) => Acted {
            told: Told::Failed,
            answer: fault_answer(alloc, fault),
            seen: None,
        },
    }
}

/// One turn of one account, at the number that its clock gave, in seconds.
///
/// Where the account's last turn failed its records are loaded again first, and `told` says what they hold. A derived
/// key is used where it fits, else the turn derives again. Turns on PINs answer that there was no memory.
pub fn act<S: Share>(
    alloc: Global,
    state: &mut UserState,
    share: &mut S,
    turn: &Turn,
    derived: Option<Derived>,
    moment: u64,
) -> Acted
    requires steady { IsSteady state.old }
    requires own { IsOf (S.seen share.old).owner state.old.account }
    requires lost { state.old.stored.lost ≡ lost_tree (S.seen share.old).lost }
    requires formed { IsFormed turn.now }
    requires derived { IfSome derived (IsDerivedOf (secret_of turn.now)) }
    requires moment { moment < 2 ^ 40 }
    ensures act { (caller place : ℕ) → IsAct (S.seen share.old) (S.seen share.new) state.old state.new
        (entry_by caller moment state.new.last turn.now result.told result.answer place) }
    ensures steady { IsSteady state.new }
    ensures last { state.new.last ≡ max state.old.last moment }
    ensures seen { IfSome result.seen (ShowsFactor state.new turn.now result.answer) }
    ensures goes { S.goes share.old share.new }
{
    state.last = state.last.max(moment);
    timely_act(alloc, state, share, turn, derived)
}
