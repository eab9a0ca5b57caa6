//! Histories: entries that are steps one after another.

ghost use Rattle.std.specs.Prelude.{◌≡◌, false, IfOk, IsTrue};
ghost use Rattle.account_machine.specs.declared.user.User.{User as UserSeen};
ghost use Rattle.account_machine.specs.Legal.{IsLegal};
ghost use Rattle.machine_step.specs.Timely.{IsTimely};

use crate::{step, steps_keep_moments};
use account_machine::{Entry, User};
use ct_bytes::NoMemory;
use pw_types::Era;
use std::alloc::Global;

/// Takes a step for each entry: true exactly where the entries are a legal history from this user, and then
/// the user is the one after them. Where it says false the user is the one before the first entry that is no
/// step.
///
/// The moments of the era and the user are below 2^40.
pub fn take_steps(
    alloc: Global,
    user: &mut User,
    era: Era,
    entries: &[Entry],
) -> Result<bool, NoMemory>
    requires { IsTimely era user.old }
    ensures legal { IfOk result (λ yes. IsTrue yes → IsLegal era user.old entries.now user.new) }

    // Where it says false the entries are no history, whoever comes after them.
    ensures refused { IfOk result (λ yes. yes ≡ false → ((after : UserSeen) → ¬ IsLegal era user.old entries.now after)) }
{
    for entry in entries {
        if !step(alloc, user, era, entry)? {
            return Ok(false);
        }
        steps_keep_moments();
    }
    Ok(true)
}
