//! The derivation of keys from secrets.

ghost use Rattle.std.specs.Prelude.{◌≡◌, ◌≤◌, IfOk};
ghost use Rattle.scrypt_kdf.specs.Derive.{derive};

use ct_bytes::NoMemory;
use std::alloc::Global;

/// Derives keys from secrets. It is called while no lock is held.
pub trait Kdf {
    /// The 64 bytes that are derived of a secret, by scrypt with N = 2^cost, r = 8 and p = 1 (RFC 7914).
    ///
    /// `cost` is from 1 to 16. Want of memory is the only fault.
    fn derive(
        &mut self,
        alloc: Global,
        secret: &[u8],
        salt: &[u8; 16],
        cost: u8,
    ) -> Result<[u8; 64], NoMemory>
        requires least { 1 ≤ cost }
        requires most { cost ≤ 16 }
        ensures key { IfOk result (λ key. key ≡ derive secret.now salt.now cost) };
}

/// Derives by scrypt alone.
#[derive(Clone, Copy, Debug)]
pub struct PlainKdf;

impl Kdf for PlainKdf {
    fn derive(
        &mut self,
        alloc: Global,
        secret: &[u8],
        salt: &[u8; 16],
        cost: u8,
    ) -> Result<[u8; 64], NoMemory> {
        scrypt_kdf::derive(alloc, secret, salt, cost)
    }
}
