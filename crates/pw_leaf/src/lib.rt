//! Credential leaf records of 296 bytes.
#![tactic(auto)]

mod change;
mod fault;
pub mod fields;
mod keys;
mod laws;
mod leaf;
mod read;
mod write;

pub use change::{bump, clear};
pub use fault::LeafFault;
pub use keys::{ChipKeys, NewLeafSecrets};
pub use laws::{
    accepted_record_is_written, changed_count_changes_nothing_else, changed_record_is_read,
    written_record_is_read,
};
pub use leaf::{LEAF_BYTES, Leaf, PublicLeaf};
pub use read::{check, look, mac_in};
pub use write::make;
