//! What a refusal reads of an account: the machine's user and the code's loaded state both give it.

ghost use Rattle.std.specs.Prelude.{◌≡◌, ℕ, length, is_some};
ghost use Rattle.std.specs.FinMap.{get, len};
ghost use Rattle.account_machine.specs.Outline.{Outline, session_at, pins, passwords, has_name};

use crate::{Mark, Session, Token};
use ct_bytes::Text;

pub trait Outlined {
    ghost outline: { Self → Outline };

    fn is_made(&self) -> bool
        ensures { result ≡ (outline self.now).home.made };

    fn next(&self) -> u64
        ensures { result ≡ (outline self.now).home.next };

    fn mark(&self, label: &Text) -> Option<Mark>
        ensures { result ≡ get (outline self.now).home.marks label.now };

    fn factors(&self) -> usize
        ensures { result ≡ len (outline self.now).home.marks };

    fn pins(&self) -> usize
        ensures { result ≡ pins (outline self.now).home.marks };

    fn passwords(&self) -> usize
        ensures { result ≡ passwords (outline self.now).home.marks };

    fn files(&self) -> usize
        ensures { result ≡ length (outline self.now).home.files };

    fn has_file(&self, name: &Text) -> bool
        ensures { result ≡ has_name name.now (outline self.now).home.files };

    fn session(&self, token: &Token) -> Option<Session>
        ensures { result ≡ session_at (outline self.now).sessions token.now };

    fn next_session(&self) -> u64
        ensures { result ≡ (outline self.now).next_session };

    fn is_mounted(&self) -> bool
        ensures { result ≡ (outline self.now).mounted };
}
