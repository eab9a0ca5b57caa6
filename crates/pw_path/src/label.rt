//! Credential labels.

ghost use Rattle.std.specs.Prelude.{◌≡◌, ◌<◌, ◌↔◌, IsSome, IfSome};

use std::marker::Model;

/// There are so many labels.
pub const LABELS: u16 = 16_384;

/// A credential label of 14 bits, seen as a number below 16,384.
#[derive(Clone, Copy, Debug, PartialEq, Eq)]
pub struct Label {
    number: u16,
}

impl Model for Label {
    ghost use Rattle.std.specs.Prelude.{ℕ, ◌<◌};

    ghost Value = { ℕ };

    ghost view = { λ label. label.number };

    ghost invariant = { λ label. label.number < 16384 };

    ghost inverse = { λ n. record { number = n } };
}

impl Label {
    /// The label of this number, and `None` from 16,384 on.
    pub fn new(number: u16) -> Option<Label>
        ensures value { IfSome result (λ label. label ≡ number) }
        ensures found { IsSome result ↔ (number < 16384) }
    {
        if number < LABELS {
            Some(Label { number })
        } else {
            None
        }
    }

    /// The label's number.
    pub fn number(self) -> u16
        ensures value { result ≡ self }
        ensures within { result < 16384 }
    {
        self.number
    }
}
