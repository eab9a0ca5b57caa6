//! The names of accounts, of their factors and of their records.
#![tactic(auto)]

mod account;

pub use account::{is_account_name, is_factor_label};
