//! The plain machine as code: whether an entry of a book is a step, and the account after it.
#![tactic(auto)]

mod answered;
mod fits;
mod history;
mod laws;
mod machine;
mod rows;

pub use history::take_steps;
pub use laws::{
    a_fresh_account_has_such_moments, an_entry_leads_to_one_account, steps_keep_moments,
};
pub use machine::step;
