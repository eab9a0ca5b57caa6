//! The platform of records as its lock takes it.
#![tactic(auto)]

mod answers;
mod contents;
mod device;
mod laws;
mod leafless;
mod stepping;

pub use contents::AccountContents;
pub use device::BoardDevice;
pub use laws::{found_accounts_have_names, images_are_led_by_the_first_steps};
