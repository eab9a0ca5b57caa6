//! Loading what an account keeps in memory of its records, and removing what its stash doesn't name.
#![tactic(auto)]

mod bounds;
mod files;
mod loading;
mod read;
mod recovering;
mod removing;
mod rows;
mod stash;

pub use loading::load;
pub use read::{find_bytes, find_view};
pub use recovering::recover;
