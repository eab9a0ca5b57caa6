//! The records of stashes as bytes: their fields read and written, in both versions.
#![tactic(auto)]

mod block;
mod blocks;
mod contents;
mod fault;
mod fields;
mod order;
mod payload;
mod reset;
mod spelling;

pub use block::{Block, Form};
pub use contents::{Contents, read_contents};
pub use fault::RecordFault;
pub use payload::{Payload, read_payload};
pub use reset::Reset;
pub use spelling::{spell_contents, spell_payload};
