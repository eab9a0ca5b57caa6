//! Records of vault files: bytes sealed under a vault key, bound to an account and a file name.
#![tactic(auto)]

mod fault;
mod file;
mod laws;
mod parts;

pub use fault::VaultFault;
pub use file::{MAX_FILE, open_file, seal_file};
pub use laws::{data_of_one_file, read_file_is_spelled, sealed_file_opens, spelled_file_is_read};
