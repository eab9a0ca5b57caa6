//! What a payload keeps for a PIN.

use ct_bytes::NoMemory;
use name_map::Copied;

/// The reset secret of a PIN.
#[derive(Clone, Copy, Debug, PartialEq, Eq)]
pub struct Reset {
    /// The edition of the factor that it belongs to.
    pub edition: u64,
    /// The secret that sets the count of wrong tries back.
    pub secret: [u8; 32],
}

impl Copied for Reset {
    fn copy(&self) -> Result<Reset, NoMemory> {
        Ok(*self)
    }
}
