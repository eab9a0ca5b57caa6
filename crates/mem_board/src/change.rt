//! The calls that a board in memory stores.

use ct_bytes::{Blob, Text};

/// What a call changes where it is done.
#[derive(Debug, Drop)]
pub enum Change {
    /// Makes or replaces a temporary file.
    Write(Text, Blob),
    SyncTemp(Text),
    /// Gives the first file the second name.
    Rename(Text, Text),
    Remove(Text),
    SyncDir,
    /// Stores the chip's words.
    Store([u8; 256]),
}

/// How a call ended.
#[derive(Clone, Copy, Debug, PartialEq, Eq)]
pub enum Outcome {
    Done,
    /// It failed, and its change is there now.
    FailedDone,
    /// It failed, and its change isn't there now.
    FailedNot,
}

#[derive(Debug, Drop)]
pub struct Call {
    pub change: Change,
    pub outcome: Outcome,
}
