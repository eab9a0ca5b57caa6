//! The rows of the table that make no device step, over an account's state.
#![tactic(auto)]

mod files;
mod looks;
mod sessions;

pub use files::{list_files, unmount};
pub use looks::{look, refuse};
pub use sessions::{end_session, extend_session, start_session};
