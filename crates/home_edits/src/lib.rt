//! The edits of an account's durable state, over any share.
#![tactic(auto)]

mod commit;
mod factor_puts;
mod files;
mod first_password;
mod home;
mod passwords;
mod record_put;
mod reseal;

pub use files::{FilePut, get_file, put_file, seal_file_put};
pub use first_password::{HomeKeys, Ivs, add_first_password};
pub use home::create;
pub use passwords::{add_password, remove_password, update_password, wrap_of};
pub use reseal::reseal_password;
