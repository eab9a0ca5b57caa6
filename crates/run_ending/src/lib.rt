//! How a run ends: the endings, their statuses, and the texts that are said.
#![tactic(auto)]

mod ending;
mod said;

pub use ending::{Ending, SAID_ROOM};
