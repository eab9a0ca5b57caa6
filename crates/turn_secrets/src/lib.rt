//! The rows of the table that read secrets, over an account's state: a password is tried, the vault is opened, and
//! the factors are listed.
#![tactic(auto)]

mod binding;
mod check;
mod damaged;
mod factors;
mod kdf;
mod laws;
mod password;
mod vault;

pub use factors::list_factors;
pub use kdf::{Kdf, PlainKdf};
pub use laws::{only_the_password_opens, password_opens_to_the_main_key};
pub use password::authenticate_password;
pub use vault::mount;
