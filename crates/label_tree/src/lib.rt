//! The host's tree of hashes over all credential labels.
#![tactic(auto)]

mod nodes;
mod tree;

pub use nodes::NO_HASH;
pub use tree::Tree;
