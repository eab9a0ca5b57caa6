//! Why scrypt refused.

ghost use Rattle.std.specs.Prelude.{◌≡◌};

use ct_bytes::NoMemory;

/// Why scrypt refused.
#[derive(Clone, Copy, Debug, PartialEq, Eq)]
pub enum ScryptFault {
    /// The parameters or the length of the output are outside their bounds.
    BadParams,
    /// There was no memory.
    NoMemory,
}

impl From<NoMemory> for ScryptFault {
    ghost use Rattle.scrypt_kdf.specs.declared.fault.ScryptFault.TheVariants as faults;

    ghost from_gives = { λ _ e. e ≡ faults.NoMemory };

    fn from(_: NoMemory) -> ScryptFault {
        ScryptFault::NoMemory
    }
}
