//! AES-GCM (SP 800-38D) with an IV of 12 bytes and a tag of 16: sealing and opening in place.
#![tactic(auto)]

mod field;
mod gcm;
mod ghash;
mod hash_key;
mod sealing;

pub use field::product;
pub use hash_key::HashKey;
pub use sealing::{BadTag, KeySize, open_in_place, seal_and_open, seal_in_place, tag_with};
