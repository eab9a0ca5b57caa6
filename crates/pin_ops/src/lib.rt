//! Steps on PINs over a chip's words and the host's tree, and finding what a host lacks.
#![tactic(auto)]

mod answer;
mod calls;
mod missing;

pub use answer::Resync;
pub use calls::{insert, remove, reset, try_pin};
pub use missing::{resync, resync_label};
