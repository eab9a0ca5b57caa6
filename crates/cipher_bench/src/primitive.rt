//! What can be measured, by its name on the command line.

ghost use Rattle.std.specs.Prelude.{◌+◌, ◌*◌, ◌≤◌, length};

use aes_core::Aes256;
use gcm_seal::{HashKey, product, seal_in_place};
use hmac_sha::{mac, pbkdf2_one};
use sha2::{Digest, Sha256};

/// The largest buffer.
pub const MOST_BYTES: usize = 1 << 30;

// The key and the first block are of no meaning.
const KEY: [u8; 32] = [7; 32];

const HASH_KEY: u128 = 0x66e94bd4ef8a2c3b884cfa59ca342b2e;

/// A primitive that can be measured.
#[derive(Clone, Copy, Debug, PartialEq, Eq)]
pub enum Primitive {
    /// AES-256 in counter mode, with the key schedule.
    Counter,
    /// Sealing by AES-256-GCM, without associated data.
    Seal,
    /// GHASH by the table of four bits, with making the table.
    Hash,
    /// GHASH by the bit rule.
    BitRule,
    /// SHA-256.
    Digest,
    /// HMAC-SHA-256.
    Mac,
    /// PBKDF2 with one turn: as many bytes as the buffer has, of 16 bytes of salt.
    Derivation,
}

impl Primitive {
    /// The primitive of a name.
    pub fn named(name: &str) -> Option<Primitive> {
        if name == "aes_256_ctr" {
            Some(Primitive::Counter)
        } else if name == "aes_256_gcm" {
            Some(Primitive::Seal)
        } else if name == "ghash" {
            Some(Primitive::Hash)
        } else if name == "ghash_bit_rule" {
            Some(Primitive::BitRule)
        } else if name == "sha_256" {
            Some(Primitive::Digest)
        } else if name == "hmac_sha_256" {
            Some(Primitive::Mac)
        } else if name == "pbkdf2_sha_256" {
            Some(Primitive::Derivation)
        } else {
            None
        }
    }

    /// Runs the primitive over the buffer, and leaves what it gives there.
    pub fn run(self, buf: &mut [u8])
        requires { length buf.old ≤ MOST_BYTES }
    {
        match self {
            Primitive::Counter => Aes256::expand(&KEY).ctr_xor([7; 16], buf),
            Primitive::Seal => {
                let tag = seal_in_place(&KEY, &[7; 12], b"", buf);
                leave(buf, &tag);
            }
            Primitive::Hash => {
                let hash = hash_by_table(buf);
                leave(buf, &hash.to_be_bytes());
            }
            Primitive::BitRule => {
                let hash = hash_by_bits(buf);
                leave(buf, &hash.to_be_bytes());
            }
            Primitive::Digest => {
                let digest: [u8; 32] = Sha256::digest(&*buf);
                leave(buf, &digest);
            }
            Primitive::Mac => {
                let code = mac(&KEY, buf);
                leave(buf, &code);
            }
            Primitive::Derivation => derive(buf),
        }
    }
}

// Writes a result where the next repetition reads it, so that none can be left out.
fn leave(buf: &mut [u8], block: &[u8]) {
    for (place, byte) in buf.iter_mut().zip(block.iter()) {
        *place ^= *byte;
    }
}

// Bytes of PBKDF2 into the buffer. Each salt is of the bytes before, so that none can be left out.
fn derive(buf: &mut [u8])
    requires { length buf.old ≤ MOST_BYTES }
{
    let mut salt = [7u8; 16];
    leave(&mut salt, buf);
    pbkdf2_one(&KEY, &salt, buf);
}

// A block of the buffer, as a number.
fn block_at(buf: &[u8], i: usize) -> u128
    requires { 16 * i + 16 ≤ length buf.now }
{
    let mut block = [0u8; 16];
    block.copy_from_slice(&buf[16 * i..16 * i + 16]);
    u128::from_be_bytes(block)
}

// GHASH of the whole blocks of the buffer by the table.
fn hash_by_table(buf: &[u8]) -> u128 {
    let key = HashKey::new(HASH_KEY);
    let mut hash = 0;
    for i in 0..buf.len() / 16 {
        hash = key.product(hash ^ block_at(buf, i));
    }
    hash
}

// GHASH of the whole blocks of the buffer by the bit rule.
fn hash_by_bits(buf: &[u8]) -> u128 {
    let mut hash = 0;
    for i in 0..buf.len() / 16 {
        hash = product(hash ^ block_at(buf, i), HASH_KEY);
    }
    hash
}
