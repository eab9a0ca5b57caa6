//! Tests of the platform's lock and of the accounts' locks.
#![tactic(auto)]

mod device;
mod looks;
mod records;
#[cfg(test)]
mod shares;
mod walk;

pub use device::CountingDevice;
pub use looks::LookTurns;
pub use records::RecordTurns;
pub use walk::{look_at, looks_of_two};
