//! A home's clients, served until their inputs end, and the home's end.
#![tactic(auto)]

mod serving;

pub use serving::{ServedHome, end_home, serve_home};
