//! What a resync answers.

use pw_leaf::LEAF_BYTES;
use pw_path::{Hash, Label};

/// What a host lacked, by the chip's newest log entry.
#[derive(Clone, Copy, Debug, PartialEq, Eq)]
pub enum Resync {
    /// Nothing.
    InStep,
    /// An insert: the label is used in the tree now, and has no record.
    Inserted(Label),
    /// A try or a reset: the label's record has to be this one.
    Put(Label, [u8; LEAF_BYTES]),
    /// A remove: the label's record has to go.
    Removed(Label),
    /// A reset of the tree: the one leaf record that there may be has to go.
    Emptied,
    /// Neither root of the log is the host's, or the newest entry can't be replayed here.
    Lost { host: Hash, chip: Hash },
}
