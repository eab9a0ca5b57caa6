//! The language of the daemon's clients, whole: what a line asks, and how an answer is written.
#![tactic(auto)]

mod append;
mod fields;
mod laws;
mod line;
mod listed;
mod reply;
mod rows;
mod schedule;

pub use laws::{printed_tokens_are_read, strings_are_as_serde_json_writes_them};
pub use line::{Field, LineFault, parse_line};
pub use reply::{fault_text, is_plain_name, reply_text};
