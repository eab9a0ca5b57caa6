//! Main keys of sessions, and keys that are derived of secrets.

ghost use Rattle.std.specs.Prelude.{◌≡◌, ◌≤◌, ◌<◌, IfOk, IfSome, length, slice_get, option_and_then};
ghost use Rattle.auth_session.specs.declared.table.Kept.{Kept as KeptSeen};
ghost use Rattle.scrypt_kdf.specs.Derive.{derive};
ghost use Rattle.stored_home.specs.declared.derived.Derived.{Derived as DerivedSeen};
ghost use Rattle.turn_edits.specs.Endings.{Draws};
ghost use Rattle.turn_edits.specs.Sessions.{main_in, has_main};

use account_machine::Token;
use auth_session::SessionTable;
use ct_bytes::{NoMemory, Text};
use random_values::Generator;
use scrypt_kdf::derive;
use std::alloc::Global;
use stored_home::Derived;

// The main key that was proved in the session there.
fn main_at(sessions: &SessionTable, at: usize) -> Option<[u8; 32]>
    requires { at < length sessions.now.kept }
    ensures { result ≡ option_and_then (λ (k : KeptSeen). k.main) (slice_get sessions.now.kept at) }
{
    sessions.main(at).copied()
}

/// The main key that was proved in the token's session.
pub(crate) fn main_key(sessions: &SessionTable, token: &Token) -> Option<[u8; 32]>
    ensures { result ≡ main_in sessions.now.kept token.now }
{
    match sessions.place(token) {
        Some(at) => main_at(sessions, at),
        None => None,
    }
}

/// Whether a main key was proved in a session.
pub(crate) fn has_main(sessions: &SessionTable) -> bool
    ensures { result ≡ has_main sessions.now.kept }
{
    for at in 0..sessions.count() {
        if main_at(sessions, at).is_some() {
            return true;
        }
    }
    false
}

// A key that is derived of the secret with a new salt and this cost.
fn derive_new(
    alloc: Global,
    generator: &mut Generator,
    cost: u8,
    secret: &Text,
) -> Result<Derived, NoMemory>
    requires least { 1 ≤ cost }
    requires most { cost ≤ 16 }
    ensures cost { IfOk result (λ (derived : DerivedSeen). derived.cost ≡ cost) }
    ensures key { IfOk result (λ (derived : DerivedSeen). derived.key ≡ derive secret.now derived.salt derived.cost) }
    ensures draws { Draws 0 4 generator.old generator.new }
{
    let salt = generator.salt();
    let key = derive(alloc, secret.as_str().as_bytes(), &salt, cost)?;
    Ok(Derived { salt, cost, key })
}

/// A key that is derived of the secret with this cost: the given one where its cost is this, and else a new one.
pub(crate) fn derived_key(
    alloc: Global,
    generator: &mut Generator,
    cost: u8,
    secret: &Text,
    given: Option<Derived>,
) -> Result<Derived, NoMemory>
    requires least { 1 ≤ cost }
    requires most { cost ≤ 16 }
    requires given { IfSome given
        (λ (derived : DerivedSeen). derived.key ≡ derive secret.now derived.salt derived.cost) }
    ensures cost { IfOk result (λ (derived : DerivedSeen). derived.cost ≡ cost) }
    ensures key { IfOk result (λ (derived : DerivedSeen). derived.key ≡ derive secret.now derived.salt derived.cost) }
    ensures draws { Draws 0 4 generator.old generator.new }
{
    match given {
        Some(derived) => {
            if derived.cost == cost {
                Ok(derived)
            } else {
                derive_new(alloc, generator, cost, secret)
            }
        }
        None => derive_new(alloc, generator, cost, secret),
    }
}
