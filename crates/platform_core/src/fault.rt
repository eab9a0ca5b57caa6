//! Why a platform can't be opened.

/// Why a platform can't be opened.
#[derive(Clone, Copy, Debug, PartialEq, Eq)]
pub enum OpenFault {
    /// The board failed, and its count of faults rose.
    Failed,
    /// There are more than 64 accounts, named or found.
    TooMany {
        /// How many there are.
        accounts: usize,
    },
    /// There was no memory.
    NoMemory,
}
