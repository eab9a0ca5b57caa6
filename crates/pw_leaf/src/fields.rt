//! Fields of a record: where they stand, and how they are read. Numbers are big-endian.

ghost use Rattle.std.specs.Prelude.{◌≡◌, ◌+◌, ◌≤◌, length, take, drop};
ghost use Rattle.std.specs.Int.{w16, w32, w64, from_be_bytes};

use pw_path::Hash;

/// The version of a record.
pub(crate) const VERSION: u8 = 1;

pub(crate) const LABEL_AT: usize = 1;

pub(crate) const COUNT_AT: usize = 3;

pub(crate) const PAIRS_AT: usize = 4;

pub(crate) const WRONG_AT: usize = 132;

pub(crate) const BOOT_AT: usize = 136;

pub(crate) const MOMENT_AT: usize = 144;

pub(crate) const IV_AT: usize = 152;

pub(crate) const SECRETS_AT: usize = 168;

pub(crate) const MAC_AT: usize = 264;

/// The number of two bytes at a place.
pub fn u16_at(bytes: &[u8], at: usize) -> u16
    requires { at + 2 ≤ length bytes.now }
    ensures { result ≡ from_be_bytes w16 (take 2 (drop at bytes.now)) }
{
    let mut field = [0u8; 2];
    field.copy_from_slice(&bytes[at..at + 2]);
    u16::from_be_bytes(field)
}

/// The number of four bytes at a place.
pub fn u32_at(bytes: &[u8], at: usize) -> u32
    requires { at + 4 ≤ length bytes.now }
    ensures { result ≡ from_be_bytes w32 (take 4 (drop at bytes.now)) }
{
    let mut field = [0u8; 4];
    field.copy_from_slice(&bytes[at..at + 4]);
    u32::from_be_bytes(field)
}

/// The number of eight bytes at a place.
pub fn u64_at(bytes: &[u8], at: usize) -> u64
    requires { at + 8 ≤ length bytes.now }
    ensures { result ≡ from_be_bytes w64 (take 8 (drop at bytes.now)) }
{
    let mut field = [0u8; 8];
    field.copy_from_slice(&bytes[at..at + 8]);
    u64::from_be_bytes(field)
}

/// The hash at a place.
pub fn hash_at(bytes: &[u8], at: usize) -> Hash
    requires { at + 32 ≤ length bytes.now }
    ensures { result ≡ take 32 (drop at bytes.now) }
{
    let mut hash = [0; 32];
    hash.copy_from_slice(&bytes[at..at + 32]);
    hash
}
