//! The rows of the table for PINs, over an account's state and any share.
#![tactic(auto)]

mod adding;
mod clearing;
mod ending;
mod keys;
mod looking;
mod new_pin;
mod removal;
mod reset;
mod resetting;
mod trial;
mod trying;
mod updating;

pub use adding::add_pin;
pub use clearing::clear_pin;
pub use removal::remove_pin;
pub use resetting::reset_pin;
pub use trying::authenticate_pin;
pub use updating::update_pin;
