//! The users of a board's accounts behind their locks: what a client asks of an account, what the book keeps of it, and
//! what is told of it.
#![tactic(auto)]

mod answers;
mod asked;
mod laws;
mod part;
mod told;
mod turns;

pub use asked::TurnAsked;
pub use laws::damage_may_be_no_memory;
pub use part::AccountPart;
pub use told::TurnTold;
pub use turns::UserTurns;
