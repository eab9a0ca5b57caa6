//! What may be answered to a settled user.

ghost use Rattle.std.specs.Prelude.{◌≡◌, ◌↔◌, ◌⊎◌, ℕ, List, Some, true, IfOk, IsSome, IsTrue, MatchOption};
ghost use Rattle.account_machine.specs.declared.user.User.{User as UserSeen};
ghost use Rattle.account_machine.specs.Answers.{answer_of};
ghost use Rattle.account_machine.specs.Step.{outcome, MayFail, Loses, HidesCounts, IsStandIn, Given};
ghost use Rattle.machine_step.specs.Done.{tail_in, IsDone};
ghost use Rattle.machine_step.specs.Timely.{IsTimely};

use crate::fits::hides_counts;
use crate::rows::perform;
use account_machine::{Answer, Refused, Request, Turn, User, names_tree, turn_refusal};
use ct_bytes::NoMemory;
use name_map::Copied;
use pw_types::Era;
use std::alloc::Global;

fn is_same(said: Refused, refused: Refused) -> bool
    ensures { IsTrue result ↔ (said ≡ refused) }
{
    said == refused
}

// Whether the answer says this refusal.
fn says(answer: &Answer, refused: Refused) -> bool
    ensures { IsTrue result ↔ (answer.now ≡ answer_of refused) }
{
    match answer.refused() {
        None => false,
        Some(said) => is_same(said, refused),
    }
}

// Changes the user as the turn's row says, and tells whether the answer is the row's.
fn row(
    alloc: Global,
    user: &mut User,
    era: Era,
    turn: &Turn,
    answer: &Answer,
) -> Result<Option<bool>, NoMemory>
    requires { IsTimely era user.old }
    ensures { IfOk result (IsDone (outcome era (tail_in answer.now) user.old turn.now) answer.now user.new) }
{
    match turn_refusal(user, turn, user.last) {
        Some(refused) => Ok(Some(says(answer, refused))),
        None => perform(alloc, user, era, turn, answer),
    }
}

// Whether another answer than its row's may stand in a turn.
fn may_fail(turn: &Turn) -> bool
    ensures { IsTrue result ↔ MayFail turn.now }
{
    match turn {
        Turn::Look(_) => false,
        Turn::Act(_) | Turn::Clear(_) => true,
    }
}

/// Whether this is want of memory or a damaged record.
pub fn is_stand_in(answer: &Answer) -> bool
    ensures { IsTrue result ↔ IsStandIn answer.now }
{
    matches!(answer, Answer::NoMemory | Answer::Damaged(_))
}

fn is_tree_lost(answer: &Answer) -> bool
    ensures { IsTrue result ↔ ((host chip : List ℕ) × (answer.now ≡ Answer.TreeLost host chip)) }
{
    matches!(answer, Answer::TreeLost { .. })
}

fn is_listing(turn: &Turn) -> bool
    ensures { IsTrue result ↔ ((account : List ℕ) × (turn.now ≡ Turn.Act (Request.ListFactors account))) }
{
    match turn {
        Turn::Act(request) => matches!(request, Request::ListFactors { .. }),
        Turn::Look(_) | Turn::Clear(_) => false,
    }
}

// Whether the tree is told lost where that may be.
fn loses(user: &User, turn: &Turn, answer: &Answer) -> bool
    ensures { IsTrue result ↔ Loses user.now turn.now answer.now user.now }
{
    is_tree_lost(answer) && names_tree(user, turn) && turn_refusal(user, turn, user.last).is_none()
}

// Whether the factors are listed without counts where that may be.
fn hides(user: &User, turn: &Turn, answer: &Answer) -> bool
    ensures { IsTrue result ↔ HidesCounts user.now turn.now answer.now user.now }
{
    is_listing(turn)
        && turn_refusal(user, turn, user.last).is_none()
        && hides_counts(answer, user.durable.factors.rows())
}

fn is_fault(answer: &Answer) -> bool
    ensures { IsTrue result ↔ (answer.now ≡ Answer.StorageFault) }
{
    matches!(answer, Answer::StorageFault)
}

// Whether the user may stay as it is: the tree is told lost, counts are hidden, or memory or a record was
// wanting.
fn stays(user: &User, turn: &Turn, answer: &Answer) -> bool
    ensures { IsTrue result ↔ (Loses user.now turn.now answer.now user.now ⊎ HidesCounts user.now turn.now answer.now user.now ⊎ (MayFail turn.now × IsStandIn answer.now)) }
{
    loses(user, turn, answer)
        || hides(user, turn, answer)
        || (may_fail(turn) && is_stand_in(answer))
}

// Whether the row gave this answer.
fn fits(gave: Option<bool>) -> bool
    ensures { IsTrue result ↔ (gave ≡ Some true) }
{
    matches!(gave, Some(true))
}

// Whether a device was told to fail where that may be.
fn fails(gave: Option<bool>, turn: &Turn, answer: &Answer) -> bool
    ensures { IsTrue result ↔ (IsSome gave × MayFail turn.now × (answer.now ≡ Answer.StorageFault)) }
{
    gave.is_some() && may_fail(turn) && is_fault(answer)
}

/// The user after a turn that was answered so, where that may be. The user is settled.
pub fn answered(
    alloc: Global,
    mut user: User,
    era: Era,
    turn: &Turn,
    answer: &Answer,
) -> Result<Option<User>, NoMemory>
    requires { IsTimely era user }
    ensures { IfOk result (λ found. MatchOption found
        ((after : UserSeen) → ¬ Given era user turn.now answer.now after)
        (λ after. Given era user turn.now answer.now after)) }
{
    let mut done = user.copy()?;
    let gave = row(alloc, &mut done, era, turn, answer)?;
    if fits(gave) {
        return Ok(Some(done));
    }
    if fails(gave, turn, answer) {
        user.other = Some(done.durable);
        return Ok(Some(user));
    }
    if stays(&user, turn, answer) {
        return Ok(Some(user));
    }
    Ok(None)
}
