//! What is told of a turn.

use account_machine::Answer;
use user_state::Seen;

/// What is told of a turn to the client that asked it: its answer, and what a look shows.
///
/// Where there was no memory for the copy of a list, the answer is that of no memory.
#[derive(Drop)]
pub struct TurnTold {
    pub answer: Answer,
    pub seen: Option<Seen>,
}
