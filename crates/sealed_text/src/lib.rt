//! Texts sealed under a key, each with its IV and its tag.
#![tactic(auto)]

mod fault;
mod laws;
mod sealed;

pub use fault::OpenFault;
pub use laws::{sealed_text_opens, text_opens_to_one};
pub use sealed::{Sealed, open_parts};
