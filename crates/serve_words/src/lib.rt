//! What the words of `serve` ask.
#![tactic(auto)]

mod accounts;
mod fault;
mod flags;
mod laws;
mod number;
mod options;

pub use fault::UsageFault;
pub use laws::{what_is_asked_is_bounded, words_ask_what_they_spell};
pub use options::{ServeOptions, serve_options};
