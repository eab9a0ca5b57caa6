//! Bytes in room of their own, without heap memory.

ghost use Rattle.std.specs.Prelude.{◌≡◌, ◌+◌, ◌≤◌, ◌++◌, [], length};

use std::marker::Model;

/// The most bytes that a name has: those of a vault file's.
pub const MOST: usize = 166;

/// At most 166 bytes, seen as their list. The room behind them is zero.
#[derive(Clone, Copy, Debug)]
pub struct NameBytes {
    room: [u8; 166],
    used: usize,
}

impl Model for NameBytes {
    ghost use Rattle.std.specs.Prelude.{◌≡◌, ℕ, ◌-◌, ◌++◌, List, length, take, replicate};

    ghost Value = { List ℕ };

    ghost view = { λ b. take b.used b.room };

    ghost use Rattle.record_names.specs.Room.{IsZeroBehind, room_again, used_again};

    ghost invariant = { λ b. IsZeroBehind b.room b.used };

    ghost inverse = { λ bytes. record { room = bytes ++ replicate (166 - length bytes) 0; used = length bytes } };

    ghost inverse_ok = { λ b kept. λ i. record { room = room_again b.room b.used kept i; used = used_again b.room b.used kept i } };
}

impl NameBytes {
    /// No bytes.
    pub fn new() -> NameBytes
        ensures value { result ≡ [] }
    {
        NameBytes {
            room: [0; 166],
            used: 0,
        }
    }

    /// Adds bytes at the end.
    pub fn push(&mut self, bytes: &[u8])
        requires { length self.old + length bytes.now ≤ 166 }
        ensures value { self.new ≡ self.old ++ bytes.now }
    {
        let end = self.used + bytes.len();
        self.room[self.used..end].copy_from_slice(bytes);
        self.used = end;
    }

    /// The bytes.
    pub fn as_slice(&self) -> &[u8]
        ensures value { result.now ≡ self.now }
        ensures within { length self.now ≤ 166 }
    {
        &self.room[..self.used]
    }
}
