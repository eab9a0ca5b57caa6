//! Redoing or undoing the chip's newest call, where the leaf records or the host's tree lack it.
#![tactic(auto)]

mod asking;
mod building;
mod carrying;
mod replaying;
mod undoing;
mod writing;

pub use asking::due_label;
pub use building::build;
pub use replaying::replay;
