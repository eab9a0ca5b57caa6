//! One account's state between its turns, and what it is to the machine's user.
#![tactic(auto)]

mod laws;
mod outlined;
mod state;

pub use laws::settled_state_has_the_users_outline;
pub use state::{Doubt, Seen, UserState};
