//! Why a factor record isn't read.

ghost use Rattle.std.specs.Prelude.{◌≡◌};
ghost use Rattle.ct_bytes.specs.Fault.{place_of};
ghost use Rattle.factor_files.specs.declared.fault.FactorFault.TheVariants as faults;

use ct_bytes::{ByteFault, NoMemory};
use record_fields::BadField;

/// Why a factor record isn't read.
#[derive(Clone, Copy, Debug, PartialEq, Eq)]
pub enum FactorFault {
    /// The bytes have another form. So many stand before the first field that is cut short or breaks a
    /// rule, or before the first byte too many.
    BadRecord(usize),
    /// There was no memory.
    NoMemory,
}

impl From<NoMemory> for FactorFault {
    ghost from_gives = { λ _ e. e ≡ faults.NoMemory };

    fn from(_: NoMemory) -> FactorFault {
        FactorFault::NoMemory
    }
}

impl From<ByteFault> for FactorFault {
    ghost from_gives = { λ fault e. e ≡ faults.BadRecord (place_of fault) };

    fn from(fault: ByteFault) -> FactorFault {
        FactorFault::BadRecord(fault.place())
    }
}

impl From<BadField> for FactorFault {
    ghost from_gives = { λ field e. e ≡ faults.BadRecord field.0 };

    fn from(field: BadField) -> FactorFault {
        FactorFault::BadRecord(field.0)
    }
}
