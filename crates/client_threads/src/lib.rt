//! Clients that are served side by side, each on a thread of its own where threads can be made.
#![tactic(auto)]

mod ending;
mod job;
mod line_job;
mod serve;

pub use ending::{ClientsEnd, ends_of};
pub use job::Job;
pub use line_job::LineJob;
pub use serve::serve_all;
