//! What the refusals read of a state.

ghost use Rattle.std.specs.Prelude.{◌≡◌, ℕ, List, count_by, bytes_eq};
ghost use Rattle.std.specs.List.{list_any};
ghost use Rattle.account_machine.specs.Outline.{is_pin_kind, is_password_kind};
ghost use Rattle.factor_files.specs.declared.factor.FactorRecord.{FactorRecord as RecordSeen};
ghost use Rattle.stored_home.specs.declared.stored.Kept.{Kept as KeptSeen};

use crate::UserState;
use account_machine::{Kind, Mark, Outlined, Session, Token};
use ct_bytes::Text;
use factor_files::FactorRecord;
use stored_home::Kept;

// How many factors are PINs.
fn pins_among(rows: &[(Text, FactorRecord)]) -> usize
    ensures { result ≡ count_by (λ (row : List ℕ × RecordSeen). is_pin_kind row.1.kind) rows.now }
{
    rows.iter()
        .filter(|row| matches!(row.1.kind, Kind::Pin))
        .count()
}

// How many are passwords.
fn passwords_among(rows: &[(Text, FactorRecord)]) -> usize
    ensures { result ≡ count_by (λ (row : List ℕ × RecordSeen). is_password_kind row.1.kind) rows.now }
{
    rows.iter()
        .filter(|row| matches!(row.1.kind, Kind::Password))
        .count()
}

// Whether a row has the name.
fn is_among(rows: &[(Text, Kept)], name: &Text) -> bool
    ensures { result ≡ list_any (λ (row : List ℕ × KeptSeen). bytes_eq row.0 name.now) rows.now }
{
    rows.iter().any(|row| row.0 == *name)
}

impl Outlined for UserState {
    ghost use Rattle.user_state.specs.Outlines.{outline_in};

    ghost outline = { outline_in };

    fn is_made(&self) -> bool {
        self.stored.stash.is_some()
    }

    fn next(&self) -> u64 {
        match &self.stored.stash {
            None => 1,
            Some(stash) => stash.next(),
        }
    }

    fn mark(&self, label: &Text) -> Option<Mark> {
        match self.stored.factors.get(label) {
            None => None,
            Some(row) => Some(Mark {
                kind: row.kind,
                edition: row.edition,
            }),
        }
    }

    fn factors(&self) -> usize {
        self.stored.factors.len()
    }

    fn pins(&self) -> usize {
        pins_among(self.stored.factors.rows())
    }

    fn passwords(&self) -> usize {
        passwords_among(self.stored.factors.rows())
    }

    fn files(&self) -> usize {
        self.stored.files.len()
    }

    fn has_file(&self, name: &Text) -> bool {
        is_among(self.stored.files.rows(), name)
    }

    fn session(&self, token: &Token) -> Option<Session> {
        self.sessions.session(token)
    }

    fn next_session(&self) -> u64 {
        self.sessions.next()
    }

    fn is_mounted(&self) -> bool {
        self.vault.is_some()
    }
}
