//! The entry that a book keeps of a turn.

use crate::{Answer, Turn};

/// What the reload at a turn's start told of an unsettled account.
#[derive(Clone, Copy, Debug, PartialEq, Eq)]
pub enum Told {
    /// No reload was due.
    Settled,
    /// The records hold the durable part.
    Before,
    /// The records hold the second possible durable part.
    After,
    /// The reload failed, and the account stays unsettled.
    Failed,
}

/// One turn of one account.
///
/// `caller` is the client's place, from 0. `given` is the number that the clock gave, cut to
/// 2^40 - 1, and `moment` the one that counts, both in seconds. `place` is the number of device
/// steps up to and with this turn's last one, and 0 where it made none.
#[derive(Debug, Drop)]
pub struct Entry {
    pub caller: u32,
    pub given: u64,
    pub moment: u64,
    pub told: Told,
    pub turn: Turn,
    pub answer: Answer,
    pub place: u64,
}
