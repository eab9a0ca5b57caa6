//! What the top call's clause comes to where nothing outside is in the way.
#![tactic(auto)]

mod laws;

pub use laws::{accounts_keep_to_their_opening, quiet_runs_end_well};
