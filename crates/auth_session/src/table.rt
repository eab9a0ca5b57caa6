//! The table: 64 places, whose memory is taken once.

ghost use Rattle.std.specs.Prelude.{◌≡◌, ◌+◌, ◌<◌, ◌-◌, ◌^◌, [], None, Some, ◌≤◌, IfOk, length, vec_len, vec_capacity, slice_get, option_copied, option_and_then, option_map, IfSome, IfNone};
ghost use Rattle.std.specs.List.{remove};
ghost use Rattle.account_machine.specs.Effect.{extended_end, proved_end};
ghost use Rattle.account_machine.specs.Outline.{session_at};
ghost use Rattle.account_machine.specs.Sessions.{place_of};
ghost use Rattle.auth_session.specs.Table.{sessions_in, new_session, with_kept, edit_at, found_in, extended_kept, proved_kept, first_proved_kept};
ghost use Rattle.auth_session.specs.declared.table.Kept.{Kept as KeptSeen};

use account_machine::{Intent, Session, Token};
use ct_bytes::NoMemory;
use std::alloc::Global;
use std::marker::Model;

/// The most sessions that are kept.
const MOST_SESSIONS: usize = 64;

/// How long a new session lasts, and how long one at least lasts after a right secret, in seconds.
const SESSION_SECONDS: u64 = 300;

/// How far ahead an extended session's end may be, in seconds.
const EXTENDED_SECONDS: u64 = 600;

/// A session, with the main key of the home where a secret was proved in it.
#[derive(Clone, Copy, PartialEq, Eq)]
pub struct Kept {
    pub session: Session,
    pub main: Option<[u8; 32]>,
}

/// Why a token names no session that lasts.
#[derive(Clone, Copy, Debug, PartialEq, Eq)]
pub enum SessionFault {
    /// No kept session has the token.
    Unknown,
    /// Its session is at or past its end.
    Expired,
}

/// An account's sessions in the order of their numbers, of which the 64 newest are kept, and the number
/// of the next one.
#[derive(Drop)]
pub struct SessionTable {
    kept: Vec<Kept>,
    next: u64,
}

impl Model for SessionTable {
    ghost use Rattle.std.specs.Prelude.{◌≤◌, vec_len, vec_capacity};
    ghost use Rattle.auth_session.specs.Table.{Table};

    ghost Value = { Table };

    ghost view = { λ t. record { kept = t.kept.items; next = t.next } };

    ghost invariant = { λ t. (vec_len t.kept ≤ 64) × (64 ≤ vec_capacity t.kept) };
}

// The place of the token's session at a moment.
fn place(kept: &[Kept], token: &Token, moment: u64) -> Result<usize, SessionFault>
    ensures { result ≡ found_in kept.now token.now moment }
{
    for (place, kept) in kept.iter().enumerate() {
        if kept.session.is_of(token) {
            return if kept.session.ends <= moment {
                Err(SessionFault::Expired)
            } else {
                Ok(place)
            };
        }
    }
    Err(SessionFault::Unknown)
}

// The token's session, also past its end.
fn session_at(kept: &[Kept], token: &Token) -> Option<Session>
    ensures { result ≡ session_at (sessions_in kept.now) token.now }
{
    for known in kept {
        if known.session.is_of(token) {
            return Some(known.session);
        }
    }
    None
}

// The place of the token's session, also past its end.
fn place_at(kept: &[Kept], token: &Token) -> Option<usize>
    ensures some { IfSome result (λ at. (at ≡ place_of token.now (sessions_in kept.now)) × (at < length kept.now)) }
    ensures none { IfNone result (session_at (sessions_in kept.now) token.now ≡ None) }
{
    for (place, known) in kept.iter().enumerate() {
        if known.session.is_of(token) {
            return Some(place);
        }
    }
    None
}

// One more. Of 64 the oldest goes.
fn keep(kept: &mut Vec<Kept>, more: Kept)
    requires len { vec_len kept.old ≤ 64 }
    requires room { 64 ≤ vec_capacity kept.old }
    ensures items { kept.new.items ≡ with_kept kept.old.items more }
    ensures len { vec_len kept.new ≤ 64 }
    ensures room { 64 ≤ vec_capacity kept.new }
{
    if kept.len() == MOST_SESSIONS {
        kept.remove(0);
    }
    kept.push_reserved(more);
}

// Moves an end.
fn extend(kept: &mut Vec<Kept>, at: usize, seconds: u64, moment: u64) -> u64
    requires inside { at < length kept.old.items }
    requires moment { moment < 2 ^ 40 }
    ensures end { option_map (λ (k : KeptSeen). extended_end seconds moment k.session) (slice_get kept.old.items at) ≡ Some result }
    ensures after { kept.new.items ≡ edit_at (extended_kept seconds moment) at kept.old.items }
    ensures len { vec_len kept.new ≡ vec_len kept.old }
    ensures room { vec_capacity kept.new ≡ vec_capacity kept.old }
{
    let Kept { session, main } = kept[at];
    let ends = session
        .ends
        .saturating_add(seconds)
        .min(moment + EXTENDED_SECONDS);
    kept[at] = Kept {
        session: Session { ends, ..session },
        main,
    };
    ends
}

// Keeps a main key that was proved.
fn prove(kept: &mut Vec<Kept>, at: usize, main: [u8; 32], moment: u64) -> u64
    requires inside { at < length kept.old.items }
    requires moment { moment < 2 ^ 40 }
    ensures end { option_map (λ (k : KeptSeen). proved_end moment k.session) (slice_get kept.old.items at) ≡ Some result }
    ensures after { kept.new.items ≡ edit_at (proved_kept main moment) at kept.old.items }
    ensures len { vec_len kept.new ≡ vec_len kept.old }
    ensures room { vec_capacity kept.new ≡ vec_capacity kept.old }
{
    let session = kept[at].session;
    let ends = session.ends.max(moment + SESSION_SECONDS);
    kept[at] = Kept {
        session: Session {
            ends,
            authenticated: true,
            ..session
        },
        main: Some(main),
    };
    ends
}

// Keeps the main key of a home's first factor.
fn prove_new(kept: &mut Vec<Kept>, at: usize, main: [u8; 32])
    requires { at < length kept.old.items }
    ensures after { kept.new.items ≡ edit_at (first_proved_kept main) at kept.old.items }
    ensures len { vec_len kept.new ≡ vec_len kept.old }
    ensures room { vec_capacity kept.new ≡ vec_capacity kept.old }
{
    let session = kept[at].session;
    kept[at] = Kept {
        session: Session {
            authenticated: true,
            ..session
        },
        main: Some(main),
    };
}

impl SessionTable {
    /// No session, and room for all. No other call takes memory.
    pub fn new(alloc: Global) -> Result<SessionTable, NoMemory>
        ensures { IfOk result (λ table. table ≡ record { kept = []; next = 1 }) }
    {
        Ok(SessionTable {
            kept: Vec::with_capacity(alloc, MOST_SESSIONS)?,
            next: 1,
        })
    }

    /// The number of the next session.
    pub fn next(&self) -> u64
        ensures { result ≡ self.now.next }
    {
        self.next
    }

    /// How many sessions there are.
    pub fn count(&self) -> usize
        ensures { result ≡ length self.now.kept }
    {
        self.kept.as_slice().len()
    }

    /// Starts a session with the next number and this tail. It ends in 300 seconds. Of 64 that are kept
    /// the oldest is dropped.
    pub fn start(&mut self, intent: Intent, tail: [u8; 16], moment: u64) -> Token
        requires room { self.old.next < 2 ^ 64 - 1 }
        requires moment { moment < 2 ^ 40 }
        ensures token { result ≡ record { number = self.old.next; tail = tail } }
        ensures after { self.new ≡ record {
          kept = with_kept self.old.kept (record { session = new_session self.old.next tail intent moment; main = None });
          next = self.old.next + 1;
        } }
    {
        let number = self.next;
        let session = Session {
            number,
            tail,
            intent,
            ends: moment + SESSION_SECONDS,
            authenticated: false,
        };
        keep(
            &mut self.kept,
            Kept {
                session,
                main: None,
            },
        );
        self.next = number + 1;
        Token { number, tail }
    }

    /// The place of the token's session, which isn't at or past its end. `Unknown` comes before `Expired`.
    pub fn find(&self, token: &Token, moment: u64) -> Result<usize, SessionFault>
        ensures exact { result ≡ found_in self.now.kept token.now moment }
    {
        place(&self.kept, token, moment)
    }

    /// Moves the end of the session there by so many seconds, and to at most 600 seconds from now. Gives
    /// the end.
    pub fn extend(&mut self, at: usize, seconds: u64, moment: u64) -> u64
        requires inside { at < length self.old.kept }
        requires moment { moment < 2 ^ 40 }
        ensures end { option_map (λ (k : KeptSeen). extended_end seconds moment k.session) (slice_get self.old.kept at) ≡ Some result }
        ensures after { self.new ≡ record self.old { kept = edit_at (extended_kept seconds moment) at self.old.kept } }
    {
        extend(&mut self.kept, at, seconds, moment)
    }

    /// Authenticates the session there with the main key that was proved. It ends at least 300 seconds
    /// from now. Gives the end.
    pub fn prove(&mut self, at: usize, main: [u8; 32], moment: u64) -> u64
        requires inside { at < length self.old.kept }
        requires moment { moment < 2 ^ 40 }
        ensures end { option_map (λ (k : KeptSeen). proved_end moment k.session) (slice_get self.old.kept at) ≡ Some result }
        ensures after { self.new ≡ record self.old { kept = edit_at (proved_kept main moment) at self.old.kept } }
    {
        prove(&mut self.kept, at, main, moment)
    }

    /// Authenticates the session there, in which the home got its first factor. Its end stays.
    pub fn prove_new(&mut self, at: usize, main: [u8; 32])
        requires { at < length self.old.kept }
        ensures { self.new ≡ record self.old { kept = edit_at (first_proved_kept main) at self.old.kept } }
    {
        prove_new(&mut self.kept, at, main);
    }

    /// Drops the session there.
    pub fn end(&mut self, at: usize)
        requires { at < length self.old.kept }
        ensures { self.new ≡ record self.old { kept = remove self.old.kept at } }
    {
        self.kept.remove(at);
    }

    /// The token's session, also past its end.
    pub fn session(&self, token: &Token) -> Option<Session>
        ensures { result ≡ session_at (sessions_in self.now.kept) token.now }
    {
        session_at(&self.kept, token)
    }

    /// The place of the token's session, also past its end.
    pub fn place(&self, token: &Token) -> Option<usize>
        ensures some { IfSome result (λ at. (at ≡ place_of token.now (sessions_in self.now.kept)) × (at < length self.now.kept)) }
        ensures none { IfNone result (session_at (sessions_in self.now.kept) token.now ≡ None) }
    {
        place_at(&self.kept, token)
    }

    /// The session there.
    pub fn get(&self, at: usize) -> &Session
        requires { at < length self.now.kept }
        ensures { slice_get (sessions_in self.now.kept) at ≡ Some result.now }
    {
        &self.kept[at].session
    }

    /// The main key that was proved in the session there.
    pub fn main(&self, at: usize) -> Option<&[u8; 32]>
        requires { at < length self.now.kept }
        ensures { option_copied result ≡ option_and_then (λ (k : KeptSeen). k.main) (slice_get self.now.kept at) }
    {
        self.kept[at].main.as_ref()
    }
}
