//! Replay of the chip's newest log entry on the host's tree.
#![tactic(auto)]

mod laws;
mod planning;
mod replaying;

pub use laws::replay_ends_in_step;
pub use planning::{entry_label, plan};
pub use replaying::{Replay, apply, root_after};
