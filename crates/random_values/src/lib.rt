//! Random values: each is a stretch of the key stream of ChaCha20 under a key of the run's entropy.
#![tactic(auto)]

mod generator;
mod laws;

pub use generator::Generator;
pub use laws::{places_after_places, stretch_after_stretch};
