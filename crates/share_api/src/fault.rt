//! Why a call of a share has no answer.

use pw_path::Hash;
use record_names::RecordName;

/// Why a call of a share has no answer.
#[derive(Clone, Copy, Debug, PartialEq, Eq)]
pub enum ShareFault {
    /// The device failed, and the share's count of faults rose. What the call changes is done or not.
    Failed,
    /// The host's tree of leaves has another root than the chip's. Nothing changed.
    TreeLost {
        /// The root of the host's tree.
        host: Hash,
        /// The root of the chip's.
        chip: Hash,
    },
    /// The chip refuses this record of a leaf. Nothing changed.
    Damaged(RecordName),
    /// There was no memory, and nothing changed.
    NoMemory,
}
