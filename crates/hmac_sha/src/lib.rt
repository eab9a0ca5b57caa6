//! HMAC-SHA-256 and PBKDF2 with one turn, equal to their standards.
#![tactic(auto)]

mod message;
mod pads;
mod pbkdf2;
mod pieces;

pub use message::mac;
pub use pbkdf2::pbkdf2_one;
pub use pieces::Mac;
