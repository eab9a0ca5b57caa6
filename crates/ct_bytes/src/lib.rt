//! Owned bytes and text, each seen as the list of its bytes, and bytes read and written piece after piece.
#![tactic(auto)]

mod blob;
mod fault;
mod memory;
mod reader;
mod text;
mod writer;

pub use blob::Blob;
pub use fault::ByteFault;
pub use memory::NoMemory;
pub use reader::Reader;
pub use text::Text;
pub use writer::Writer;
