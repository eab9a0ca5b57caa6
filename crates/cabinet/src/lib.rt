//! Records by name over a device.
#![tactic(auto)]

mod accounts;
mod begin;
mod cabinet;
mod calls;
mod fault;
mod names;
mod opening;

pub use cabinet::Cabinet;
pub use fault::CabinetFault;
pub use record_names::RecordName;
