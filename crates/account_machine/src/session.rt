//! Sessions of clients with an account.

ghost use Rattle.std.specs.Prelude.{◌≡◌, ◌<◌, [], IfOk, OnOk, OnErr, MatchOption, None, Some, length, slice_set, slice_index_or};
ghost use Rattle.std.specs.List.{remove};
ghost use Rattle.account_machine.specs.Outline.{is_of, session_at};
ghost use Rattle.account_machine.specs.Sessions.{place_of, replaced, ended, with_session};

use ct_bytes::NoMemory;
use name_map::Copied;
use std::alloc::Global;
use std::marker::Model;

/// What a session is for.
#[derive(Clone, Copy, Debug, PartialEq, Eq)]
pub enum Intent {
    /// To change the home, and to open the vault.
    Decrypt,
    /// To prove a secret alone.
    Verify,
}

/// What a client names its session by: the session's number and its random tail.
#[derive(Clone, Copy, Debug, PartialEq, Eq)]
pub struct Token {
    pub number: u64,
    pub tail: [u8; 16],
}

/// A session. It has expired from the moment `ends` on, in seconds.
#[derive(Clone, Copy, Debug, PartialEq, Eq)]
pub struct Session {
    pub number: u64,
    pub tail: [u8; 16],
    pub intent: Intent,
    pub ends: u64,
    /// Whether a factor's secret was proved in it.
    pub authenticated: bool,
}

/// The most sessions that an account keeps.
const MOST_SESSIONS: usize = 64;

/// An account's sessions, seen as their list, in the order of their numbers.
#[derive(Debug, Drop)]
pub struct Sessions {
    alloc: Global,
    kept: Vec<Session>,
}

impl Model for Sessions {
    ghost use Rattle.std.specs.Prelude.{List};
    ghost use Rattle.account_machine.specs.declared.session.Session.{Session};

    ghost Value = { List Session };

    ghost view = { λ s. s.kept.items };
}

impl Session {
    /// Whether the token is this session's.
    pub fn is_of(&self, token: &Token) -> bool
        ensures { result ≡ is_of token.now self.now }
    {
        self.number == token.number && self.tail == token.tail
    }
}

// The place of the token's session, or the number of sessions where there is none.
fn place_of(sessions: &[Session], token: &Token) -> usize
    ensures { result ≡ place_of token.now sessions.now }
{
    for (place, session) in sessions.iter().enumerate() {
        if session.is_of(token) {
            return place;
        }
    }
    sessions.len()
}

// The session of a token.
fn found(sessions: &[Session], token: &Token) -> Option<Session>
    ensures { result ≡ session_at sessions.now token.now }
{
    for session in sessions {
        if session.is_of(token) {
            return Some(*session);
        }
    }
    None
}

impl Sessions {
    /// No session.
    pub fn new(alloc: Global) -> Sessions
        ensures { result ≡ [] }
    {
        Sessions {
            alloc,
            kept: Vec::new(alloc),
        }
    }

    /// The sessions in the order of their numbers.
    pub fn as_slice(&self) -> &[Session]
        ensures { result.now ≡ self.now }
    {
        &self.kept
    }

    /// The session of a token.
    pub fn find(&self, token: &Token) -> Option<Session>
        ensures { result ≡ session_at self.now token.now }
    {
        found(&self.kept, token)
    }

    /// Puts another session in the place of the token's, where there is one.
    pub fn replace(&mut self, token: &Token, next: Session)
        ensures { self.new ≡ replaced token.now next self.old }
    {
        let place = place_of(&self.kept, token);
        if place < self.kept.len() {
            self.kept[place] = next;
        }
    }

    /// Drops the token's session.
    pub fn end(&mut self, token: &Token)
        ensures { self.new ≡ ended token.now self.old }
    {
        let place = place_of(&self.kept, token);
        if place < self.kept.len() {
            self.kept.remove(place);
        }
    }

    /// Adds a session. Of 64 that are kept the oldest goes. A refusal leaves them as they are.
    pub fn start(&mut self, session: Session) -> Result<(), NoMemory>
        ensures ok { OnOk result (self.new ≡ with_session self.old session) }
        ensures err { OnErr result (self.new ≡ self.old) }
    {
        self.kept.reserve(1)?;
        if self.kept.len() == MOST_SESSIONS {
            self.kept.remove(0);
        }
        self.kept.push(session)?;
        Ok(())
    }
}

impl Copied for Sessions {
    fn copy(&self) -> Result<Sessions, NoMemory> {
        let kept = self.kept.to_vec(self.alloc)?;
        Ok(Sessions {
            alloc: self.alloc,
            kept,
        })
    }
}
