//! scrypt, equal to its standard.
#![tactic(auto)]

mod block_mix;
mod blocks;
mod derivation;
mod fault;
mod params;
mod romix;
mod salsa;
mod words;

pub use derivation::{derive, scrypt};
pub use fault::ScryptFault;
pub use params::Params;
