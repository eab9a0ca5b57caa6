//! The block of a key, under the two pads of RFC 2104.

ghost use Rattle.std.specs.Prelude.{◌≡◌, ◌<◌, List, length, map, bit_xor, slice_index};
ghost use Rattle.hmac_sha.specs.Hmac.{key_block, padded};

use sha2::{Digest, Sha256};

/// The byte of the pad before the text.
pub(crate) const INNER_PAD: u8 = 0x36;

/// The byte of the pad before the inner digest.
pub(crate) const OUTER_PAD: u8 = 0x5c;

// The key as a block: hashed first where it is longer than one.
pub(crate) fn key_block(key: &[u8]) -> [u8; 64]
    ensures { result ≡ key_block key.now }
{
    let mut block = [0u8; 64];
    if key.len() <= 64 {
        block[..key.len()].copy_from_slice(key);
    } else {
        let digest: [u8; 32] = Sha256::digest(key);
        block[..32].copy_from_slice(&digest);
    }
    block
}

// The block with each byte under xor with the pad.
pub(crate) fn padded(block: &[u8; 64], pad: u8) -> [u8; 64]
    ensures { result ≡ padded pad block.now }
{
    let mut out = [0u8; 64];
    'bytes: for i in 0..64 {
        out[i] = block[i] ^ pad;
    }
    out
}
