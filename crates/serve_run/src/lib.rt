//! The top call: a home of many accounts is served to many clients, over any desk.
#![tactic(auto)]

mod begin;
mod command;
mod left;
mod serve;

pub use command::run;
pub use left::{Left, Outcome};
