//! GHASH of associated data and a ciphertext (SP 800-38D, 6.4 and 7.1, step 5).

ghost use Rattle.std.specs.Prelude.{◌≡◌, ◌+◌, ◌-◌, ◌*◌, ◌/◌, ◌^◌, ◌<◌, ◌≤◌, ◌++◌, length, replicate};
ghost use Rattle.std.specs.Int.{w128, from_be_bytes};
ghost use Rattle.gcm_seal.specs.Ghash.{hash_from, filled, hashed, ghash, lengths_block};

use crate::hash_key::HashKey;

// A block of at most 16 bytes, with zeros after them.
#[inline]
fn zero_filled(bytes: &[u8]) -> [u8; 16]
    requires { length bytes.now ≤ 16 }
    ensures { result ≡ bytes.now ++ replicate (16 - length bytes.now) 0 }
{
    let mut block = [0u8; 16];
    block[..bytes.len()].copy_from_slice(bytes);
    block
}

// The hash `y` after the bytes, filled up with zeros to whole blocks.
fn absorbed(key: &HashKey, y: u128, bytes: &[u8]) -> u128
    requires { length bytes.now < 2 ^ 61 }
    ensures { result ≡ hash_from key.now y (filled bytes.now) ((length bytes.now + 15) / 16) }
{
    let mut z = y;
    let len = bytes.len();
    'turns: for i in 0..(len + 15) / 16 {
        let end = (16 * i + 16).min(len);
        let block = u128::from_be_bytes(zero_filled(&bytes[16 * i..end]));
        z = key.product(z ^ block);
    }
    z
}

// The numbers of bits of both, as a block's number.
fn lengths_number(aad: &[u8], text: &[u8]) -> u128
    requires aad { length aad.now < 2 ^ 61 }
    requires text { length text.now < 2 ^ 61 }
    ensures { result ≡ from_be_bytes w128 (lengths_block aad.now text.now) }
{
    let mut block = [0u8; 16];
    block[..8].copy_from_slice(&(8 * aad.len() as u64).to_be_bytes());
    block[8..].copy_from_slice(&(8 * text.len() as u64).to_be_bytes());
    u128::from_be_bytes(block)
}

// GHASH of associated data and a ciphertext.
pub(crate) fn hash(key: &HashKey, aad: &[u8], text: &[u8]) -> u128
    requires aad { length aad.now < 2 ^ 61 }
    requires text { length text.now < 2 ^ 61 }
    ensures { result ≡ ghash key.now (hashed aad.now text.now) }
{
    let after_aad = absorbed(key, 0, aad);
    let after_text = absorbed(key, after_aad, text);
    key.product(after_text ^ lengths_number(aad, text))
}
