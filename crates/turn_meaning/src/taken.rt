//! A turn, with what it was answered.

use account_machine::{Answer, Told, Turn};

/// One turn of an account, as a book keeps it beside its client and its place.
///
/// `given` is the number that the clock gave, cut to 2^40 - 1, and `moment` the one that counts, both in seconds.
#[derive(Debug, Drop)]
pub struct TurnTaken {
    pub given: u64,
    pub moment: u64,
    pub told: Told,
    pub turn: Turn,
    pub answer: Answer,
}
