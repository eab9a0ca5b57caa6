//! Keys by scrypt, one after another.

ghost use Rattle.std.specs.Prelude.{◌≤◌};

use ct_bytes::NoMemory;
use scrypt_kdf::derive;
use std::alloc::Global;

/// The highest cost of scrypt.
pub const MOST_COST: usize = 16;

/// Derives keys at a cost, so many of them.
pub fn derive_each(alloc: Global, cost: u8, repetitions: usize) -> Result<(), NoMemory>
    requires { (1 ≤ cost) × (cost ≤ 16) }
{
    let mut salt = [7u8; 16];
    for _ in 0..repetitions {
        let key = derive(alloc, b"long pass", &salt, cost)?;
        // Each salt is of the key before, so that no key can be left out.
        salt.copy_from_slice(&key[..16]);
    }
    Ok(())
}
