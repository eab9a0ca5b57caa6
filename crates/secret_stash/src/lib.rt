//! A user's secret stash: the vault key under a main key, which is wrapped once for each factor.
#![tactic(auto)]

mod bindings;
mod edits;
mod fault;
mod keys;
mod laws;
mod payloads;
mod pins;
mod stash;

pub use fault::StashFault;
pub use laws::{added_block_opens, data_of_one_block, dropped_block_is_gone};
pub use pins::pin_wrap;
pub use stash::Stash;
pub use stash_format::{Payload, Reset};
