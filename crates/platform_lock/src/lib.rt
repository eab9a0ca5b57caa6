//! The platform of all accounts behind one ticket lock, and an account's share of it for the length of a turn.
#![tactic(auto)]

mod answer;
mod device;
mod laws;
mod seat;
mod share;
mod shared;
mod turn;

pub use answer::{Answer, Outcome};
pub use ct_bytes::NoMemory;
pub use device::Device;
pub use laws::failed_steps_are_counted;
pub use seat::AccountSeat;
pub use share::AccountShare;
pub use shared::{Shared, SharedDevice, share_device};
