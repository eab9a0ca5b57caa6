//! A client's lines, answered by its seat of a home of many accounts.
#![tactic(auto)]

mod home;
mod line_client;

pub use home::Home;
pub use line_client::LineClient;
