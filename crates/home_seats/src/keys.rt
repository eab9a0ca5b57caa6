//! A key that is derived between a request's look and its act, while no lock is held.

ghost use Rattle.std.specs.Prelude.{◌≡◌, ◌≤◌, IfOk, IfSome, option_map};
ghost use Rattle.account_machine.specs.declared.request.Request.TheVariants as requests;
ghost use Rattle.account_machine.specs.declared.request.Turn.TheVariants.{Act};
ghost use Rattle.user_state.specs.Turns.{secret_of};
ghost use Rattle.user_turn.specs.Acts.{IsDerivedOf};
ghost use Rattle.home_seats.specs.Deriving.{derives_with, IsFor};

use crate::prepared::Prepared;
use account_machine::{Request, Turn};
use ct_bytes::{NoMemory, Text};
use std::alloc::Global;
use stored_home::Derived;
use turn_secrets::Kdf;
use user_state::Seen;

// The secret of a request that has one.
fn secret_asked(request: &Request) -> Option<&Text>
    ensures { option_map (λ secret. secret.now) result ≡ secret_of (Act request.now) }
{
    match request {
        Request::Authenticate { secret, .. }
        | Request::AddFactor { secret, .. }
        | Request::UpdateFactor { secret, .. } => Some(secret),
        _ => None,
    }
}

// The salt and the cost that the request derives with.
fn derives_with(request: &Request, seen: &Seen, cost: u8) -> ([u8; 16], u8)
    ensures { result ≡ derives_with request.now seen.now cost }
{
    match request {
        Request::AddFactor { .. } | Request::UpdateFactor { .. } => (seen.fresh, cost),
        _ => (seen.salt, seen.cost),
    }
}

/// Derives the key of a request's act, by what its look saw. `cost` is the cost exponent of new factors.
///
/// A request without a secret derives nothing, and so does one whose cost isn't from 1 to 16.
pub(crate) fn prepare_key<F: Kdf>(
    kdf: &mut F,
    alloc: Global,
    request: &Request,
    seen: &Seen,
    cost: u8,
) -> Result<Option<Prepared>, NoMemory>
    ensures { IfOk result (λ prepared. IfSome prepared (IsFor request.now seen.now cost)) }
{
    let Some(secret) = secret_asked(request) else {
        return Ok(None);
    };
    let (salt, cost) = derives_with(request, seen, cost);
    if cost < 1 || cost > 16 {
        return Ok(None);
    }
    let key = kdf.derive(alloc, secret.as_str().as_bytes(), &salt, cost)?;
    let derived = Derived { salt, cost, key };
    Ok(Some(Prepared {
        secret: secret.copy()?,
        derived,
    }))
}

/// The key for a turn, where it was derived of the turn's secret.
pub(crate) fn key_for(prepared: Option<Prepared>, turn: &Turn) -> Option<Derived>
    ensures { IfSome result (IsDerivedOf (secret_of turn.now)) }
{
    let Prepared { secret, derived } = prepared?;
    let Turn::Act(request) = turn else {
        return None;
    };
    if *secret_asked(request)? == secret {
        Some(derived)
    } else {
        None
    }
}
