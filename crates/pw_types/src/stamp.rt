//! A moment in a numbered boot.

/// A moment of one boot.
#[derive(Clone, Copy, Debug, PartialEq, Eq)]
pub struct Stamp {
    /// The number of the boot, counted from 1. A stamp of nothing has boot 0.
    pub boot: u64,

    /// The moment in seconds.
    pub at: u64,
}
