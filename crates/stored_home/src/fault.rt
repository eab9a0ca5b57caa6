//! Why a change of an account's records, or loading them, has no answer.

ghost use Rattle.std.specs.Prelude.{◌≡◌};
ghost use Rattle.stored_home.specs.declared.fault.StoreFault.TheVariants as faults;

use ct_bytes::NoMemory;
use pw_path::Hash;
use record_names::RecordName;

/// Why a change of an account's records, or loading them, has no answer.
#[derive(Clone, Copy, Debug, PartialEq, Eq)]
pub enum StoreFault {
    /// A device step of the call failed, and what it changes is done or not.
    Failed,
    /// This record is damaged. Nothing changed.
    Damaged(RecordName),
    /// There was no memory. Nothing changed.
    NoMemory,
    /// The tree of leaves is lost. Nothing changed.
    TreeLost {
        /// The root of the host's tree.
        host: Hash,
        /// The root of the chip's.
        chip: Hash,
    },
}

impl From<NoMemory> for StoreFault {
    ghost from_gives = { λ _ e. e ≡ faults.NoMemory };

    fn from(_: NoMemory) -> StoreFault {
        StoreFault::NoMemory
    }
}
