//! One account's share of the platform: its records and leaves, device step by device step.
#![tactic(auto)]

mod fault;
mod leaf;
mod listing;
mod share;
mod step;

pub use fault::ShareFault;
pub use leaf::{Leaf, LeafView, NewLeaf, TryAnswer};
pub use listing::Listing;
pub use record_names::RecordName;
pub use share::Share;
pub use step::{Op, Reply, Step, Write};
