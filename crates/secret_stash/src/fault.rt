//! Why a stash isn't read, opened or changed.

ghost use Rattle.std.specs.Prelude.{◌≡◌};
ghost use Rattle.secret_stash.specs.declared.fault.StashFault.TheVariants as faults;
ghost use Rattle.secret_stash.specs.Faults.{told_record, told_open};

use ct_bytes::NoMemory;
use sealed_text::OpenFault;
use stash_format::RecordFault;

/// Why a stash isn't read, opened or changed. It is then as it was.
#[derive(Clone, Copy, Debug, PartialEq, Eq)]
pub enum StashFault {
    /// The bytes have another form: those of the record, or those of its opened payload. So many stand
    /// before the first field that is cut short or breaks a rule, or before the first byte too many.
    BadStash(usize),
    /// No block has the label.
    NoBlock,
    /// The tag of the block, or of the payload, isn't that of the key.
    BadTag,
    /// There was no memory.
    NoMemory,
}

impl From<NoMemory> for StashFault {
    ghost from_gives = { λ _ e. e ≡ faults.NoMemory };

    fn from(_: NoMemory) -> StashFault {
        StashFault::NoMemory
    }
}

impl From<RecordFault> for StashFault {
    ghost from_gives = { λ fault e. e ≡ told_record fault };

    fn from(fault: RecordFault) -> StashFault {
        match fault {
            RecordFault::BadStash(place) => StashFault::BadStash(place),
            RecordFault::NoMemory => StashFault::NoMemory,
        }
    }
}

impl From<OpenFault> for StashFault {
    ghost from_gives = { λ fault e. e ≡ told_open fault };

    fn from(fault: OpenFault) -> StashFault {
        match fault {
            OpenFault::BadTag => StashFault::BadTag,
            OpenFault::NoMemory => StashFault::NoMemory,
        }
    }
}
