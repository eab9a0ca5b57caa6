//! The boot of a run.

/// The boot of a run, and the moment at which it opened, in seconds.
#[derive(Clone, Copy, Debug, PartialEq, Eq)]
pub struct Era {
    pub boot: u64,
    pub start: u64,
}
