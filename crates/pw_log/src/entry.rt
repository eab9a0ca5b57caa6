//! Log entries.

use pw_path::Hash;
use pw_types::Stamp;

/// The operation of an entry that stands for no call.
pub const BLANK: u8 = 0;

/// The tree was emptied.
pub const RESET_TREE: u8 = 1;

/// A leaf was inserted.
pub const INSERT: u8 = 2;

/// A leaf was removed.
pub const REMOVE: u8 = 3;

/// A leaf's low-entropy secret was tried.
pub const TRY: u8 = 4;

/// A leaf's count was set back by its reset secret.
pub const RESET: u8 = 5;

/// The verdict of an entry that is no try.
pub const NO_VERDICT: u8 = 0;

/// The tried secret was right.
pub const RIGHT: u8 = 1;

/// The tried secret was wrong.
pub const WRONG: u8 = 2;

/// One change of the tree's root.
#[derive(Clone, Copy, Debug, PartialEq, Eq)]
pub struct LogEntry {
    /// Which call it was, from `BLANK` to `RESET`.
    pub operation: u8,

    /// The call's label, and 0 where the tree was emptied.
    pub label: u16,

    /// The root after the call.
    pub root: Hash,

    /// The MAC of the label's leaf after the call, and 32 zero bytes where there is none.
    pub mac: Hash,

    /// `RIGHT` or `WRONG` for a try, and `NO_VERDICT` else.
    pub verdict: u8,

    /// When the call came: the boot, and the moment in seconds, below 2^40.
    pub stamp: Stamp,
}
