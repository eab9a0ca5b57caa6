//! The beginning of a home: its board's platform is opened, its accounts are, and their locks' seats are dealt to the
//! clients.
#![tactic(auto)]

mod beginning;
mod device;
mod laws;
mod names;
mod platform;
mod rooms;

pub use beginning::{BegunHome, begin_home};
pub use device::open_device;
pub use laws::{
    begun_accounts_open, begun_home_can_end, begun_home_is_servable, refused_start_keeps_homes,
};
