//! One step of the machine.

ghost use Rattle.std.specs.Prelude.{◌≡◌, ◌↔◌, ◌<◌, ◌^◌, ◌⊎◌, true, false, IfOk, OnErr, IsTrue};
ghost use Rattle.account_machine.specs.declared.user.User.{User as UserSeen};
ghost use Rattle.account_machine.specs.Step.{reloaded, IsStandIn, FailsToReload, Step};
ghost use Rattle.machine_step.specs.Timely.{IsTimely};

use crate::answered::{answered, is_stand_in};
use account_machine::{Answer, Entry, Told, User};
use ct_bytes::NoMemory;
use name_map::Copied;
use pw_types::{Era, LAST_MOMENT};
use std::alloc::Global;

// The user with which a turn at this moment begins.
fn begun(user: &User, told: Told, moment: u64) -> Result<Option<User>, NoMemory>
    ensures { IfOk result (λ found. found ≡ reloaded (record user.now { last = moment }) told) }
{
    let durable = match (told, &user.other) {
        (Told::Settled, None) | (Told::Before, Some(_)) => user.durable.copy()?,
        (Told::After, Some(other)) => other.copy()?,
        _ => return Ok(None),
    };
    Ok(Some(User {
        durable,
        other: None,
        sessions: user.sessions.copy()?,
        next_session: user.next_session,
        mounted: user.mounted,
        last: moment,
    }))
}

// Whether a reload that was due may have failed so.
fn fails_to_reload(user: &User, told: Told, answer: &Answer) -> bool
    ensures { IsTrue result ↔ FailsToReload user.now told answer.now user.now }
{
    matches!(told, Told::Failed)
        && user.other.is_some()
        && (matches!(answer, Answer::StorageFault) || is_stand_in(answer))
}

/// Takes a step: true where the table allows the entry, and then the user is the one after it. Otherwise,
/// and without memory, the user is as it was.
///
/// The moments of the era and the user are below 2^40.
pub fn step(alloc: Global, user: &mut User, era: Era, entry: &Entry) -> Result<bool, NoMemory>
    requires { IsTimely era user.old }
    ensures allowed { IfOk result (λ yes. IsTrue yes → Step era user.old entry.now user.new) }

    // Where it says false there is no such step.
    ensures refused { IfOk result (λ yes. yes ≡ false → ((after : UserSeen) → ¬ Step era user.old entry.now after)) }
    ensures same { IfOk result (λ yes. yes ≡ false → user.new ≡ user.old) }
    ensures err { OnErr result (user.new ≡ user.old) }
{
    if entry.given > LAST_MOMENT || entry.moment != user.last.max(entry.given) {
        return Ok(false);
    }
    let Some(start) = begun(user, entry.told, entry.moment)? else {
        let fails = fails_to_reload(user, entry.told, &entry.answer);
        if fails {
            user.last = entry.moment;
        }
        return Ok(fails);
    };
    let Some(after) = answered(alloc, start, era, &entry.turn, &entry.answer)? else {
        return Ok(false);
    };
    *user = after;
    Ok(true)
}
