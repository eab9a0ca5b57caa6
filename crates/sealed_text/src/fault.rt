//! Why a sealed text isn't opened.

ghost use Rattle.std.specs.Prelude.{◌≡◌};
ghost use Rattle.sealed_text.specs.declared.fault.OpenFault.TheVariants as faults;

use ct_bytes::NoMemory;

/// Why a sealed text isn't opened.
#[derive(Clone, Copy, Debug, PartialEq, Eq)]
pub enum OpenFault {
    /// Its tag isn't that of the key, the IV, the associated data and the ciphertext.
    BadTag,
    /// There was no memory.
    NoMemory,
}

impl From<NoMemory> for OpenFault {
    ghost from_gives = { λ _ e. e ≡ faults.NoMemory };

    fn from(_: NoMemory) -> OpenFault {
        OpenFault::NoMemory
    }
}
