//! The edits of an account's PINs, over any share.
#![tactic(auto)]

mod adding;
mod lost;
mod pin_stash;
mod records;
mod removal;
mod resetting;
mod setting;
mod steps;
mod trying;
mod updating;

pub use adding::add_pin;
pub use pin_stash::NewPin;
pub use removal::remove_pin;
pub use resetting::reset_pin;
pub use trying::try_pin;
pub use updating::update_pin;
