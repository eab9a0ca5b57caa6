//! The rows of the table that change an account's records, over its state and any share.
#![tactic(auto)]

mod adding;
mod ending;
mod files;
mod home;
mod keys;
mod laws;
mod passwords;
mod reading;
mod stash;

pub use adding::add_password;
pub use files::put_file;
pub use home::create;
pub use laws::drawing_goes_on;
pub use passwords::{remove_password, update_password};
pub use reading::get_file;
