//! The outline of the machine's own state.

ghost use Rattle.std.specs.Prelude.{◌≡◌, ℕ, List, count_by, map, bytes_eq};
ghost use Rattle.std.specs.List.{list_any};
ghost use Rattle.account_machine.specs.Outline.{is_pin_kind, is_password_kind};
ghost use Rattle.account_machine.specs.declared.factor.Factor.{Factor as FactorSeen};

use crate::{Factor, Kind, Mark, Outlined, Session, Token, User};
use ct_bytes::{Blob, Text};

// How many factors are PINs.
fn pins_among(rows: &[(Text, Factor)]) -> usize
    ensures { result ≡ count_by (λ (row : List ℕ × FactorSeen). is_pin_kind row.1.kind) rows.now }
{
    rows.iter()
        .filter(|row| matches!(row.1.kind, Kind::Pin))
        .count()
}

// How many are passwords.
fn passwords_among(rows: &[(Text, Factor)]) -> usize
    ensures { result ≡ count_by (λ (row : List ℕ × FactorSeen). is_password_kind row.1.kind) rows.now }
{
    rows.iter()
        .filter(|row| matches!(row.1.kind, Kind::Password))
        .count()
}

// Whether a row has the name.
fn is_among(rows: &[(Text, Blob)], name: &Text) -> bool
    ensures { result ≡ list_any (λ (row : List ℕ × List ℕ). bytes_eq row.0 name.now) rows.now }
{
    rows.iter().any(|row| row.0 == *name)
}

impl Outlined for User {
    ghost use Rattle.account_machine.specs.User.{outline_of};

    ghost outline = { outline_of };

    fn is_made(&self) -> bool {
        self.durable.made
    }

    fn next(&self) -> u64 {
        self.durable.next
    }

    fn mark(&self, label: &Text) -> Option<Mark> {
        match self.durable.factors.get(label) {
            None => None,
            Some(factor) => Some(factor.mark()),
        }
    }

    fn factors(&self) -> usize {
        self.durable.factors.len()
    }

    fn pins(&self) -> usize {
        pins_among(self.durable.factors.rows())
    }

    fn passwords(&self) -> usize {
        passwords_among(self.durable.factors.rows())
    }

    fn files(&self) -> usize {
        self.durable.files.len()
    }

    fn has_file(&self, name: &Text) -> bool {
        is_among(self.durable.files.rows(), name)
    }

    fn session(&self, token: &Token) -> Option<Session> {
        self.sessions.find(token)
    }

    fn next_session(&self) -> u64 {
        self.next_session
    }

    fn is_mounted(&self) -> bool {
        self.mounted
    }
}
