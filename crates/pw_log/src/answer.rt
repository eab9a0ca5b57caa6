//! What the log answers a host.

use crate::entry::LogEntry;
use pw_path::Hash;

/// Where the host stands that told its root.
#[derive(Clone, Copy, Debug, PartialEq, Eq)]
pub enum LogAnswer {
    /// The newest root is the host's.
    InStep,
    /// The older root is the host's: this newest entry is missing there.
    One(LogEntry),
    /// Neither root of the log is the host's.
    RootUnknown {
        host: Hash,
        newest: Hash,
        older: Hash,
    },
}
