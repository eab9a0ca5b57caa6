//! The turns of a request at one account: a look where it has one, the act, and clearings behind a right password.
#![tactic(auto)]

mod among;
mod room;
mod seat;
mod take;

pub use among::call_by_seats;
pub use seat::TurnSeat;
pub use take::take_turns;
