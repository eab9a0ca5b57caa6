//! Main keys of sessions.

ghost use Rattle.std.specs.Prelude.{◌≡◌, ◌<◌, length, slice_get, option_and_then};
ghost use Rattle.auth_session.specs.declared.table.Kept.{Kept as KeptSeen};
ghost use Rattle.turn_edits.specs.Sessions.{main_in};

use account_machine::Token;
use auth_session::SessionTable;

// The main key that was proved in the session there.
fn main_at(sessions: &SessionTable, at: usize) -> Option<[u8; 32]>
    requires { at < length sessions.now.kept }
    ensures { result ≡ option_and_then (λ (k : KeptSeen). k.main) (slice_get sessions.now.kept at) }
{
    sessions.main(at).copied()
}

/// The main key that was proved in the token's session.
pub(crate) fn main_key(sessions: &SessionTable, token: &Token) -> Option<[u8; 32]>
    ensures { result ≡ main_in sessions.now.kept token.now }
{
    match sessions.place(token) {
        Some(at) => main_at(sessions, at),
        None => None,
    }
}
