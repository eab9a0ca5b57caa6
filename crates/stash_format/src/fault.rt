//! Why a record isn't read.

ghost use Rattle.std.specs.Prelude.{◌≡◌};
ghost use Rattle.ct_bytes.specs.Fault.{place_of};
ghost use Rattle.stash_format.specs.declared.fault.RecordFault.TheVariants as faults;

use ct_bytes::{ByteFault, NoMemory};
use record_fields::BadField;

/// Why a stash's record, or its opened payload, isn't read.
#[derive(Clone, Copy, Debug, PartialEq, Eq)]
pub enum RecordFault {
    /// The bytes have another form. So many stand before the first field that is cut short or breaks a
    /// rule, or before the first byte too many.
    BadStash(usize),
    /// There was no memory.
    NoMemory,
}

impl From<NoMemory> for RecordFault {
    ghost from_gives = { λ _ e. e ≡ faults.NoMemory };

    fn from(_: NoMemory) -> RecordFault {
        RecordFault::NoMemory
    }
}

impl From<ByteFault> for RecordFault {
    ghost from_gives = { λ fault e. e ≡ faults.BadStash (place_of fault) };

    fn from(fault: ByteFault) -> RecordFault {
        RecordFault::BadStash(fault.place())
    }
}

impl From<BadField> for RecordFault {
    ghost from_gives = { λ field e. e ≡ faults.BadStash field.0 };

    fn from(field: BadField) -> RecordFault {
        RecordFault::BadStash(field.0)
    }
}
