//! The opening of a home's accounts: each is recovered over its share of the platform, and put behind a lock of its own.
#![tactic(auto)]

mod account;
mod closing;
mod fault;
mod opening;

pub use account::OpenedAccount;
pub use closing::close_opened;
pub use fault::HomeFault;
pub use opening::{Opening, open_accounts};
