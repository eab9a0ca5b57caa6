//! Sealing and opening under a key.

ghost use Rattle.std.specs.Prelude.{◌≡◌, ◌-◌, ◌*◌, ◌^◌, ◌<◌, ◌↔◌, length, IsOk, IfOk, OnOk, OnErr};
ghost use Rattle.gcm_seal.specs.Gcm.{encrypted, decrypted, tag_of};
ghost use Rattle.gcm_seal.specs.Sizes.{words_of, rounds_of};

use crate::gcm::{seal, unseal};
use aes_core::{Aes128, Aes192, Aes256};

/// The given tag isn't the tag of the associated data and the ciphertext.
#[derive(Clone, Copy, Debug, PartialEq, Eq)]
pub struct BadTag;

/// The size of a key in bits.
#[derive(Clone, Copy, Debug, PartialEq, Eq)]
pub enum KeySize {
    /// 16 bytes.
    K128,
    /// 24 bytes.
    K192,
    /// 32 bytes.
    K256,
}

/// Encrypts a text in place by AES-256-GCM, and gives the tag of the associated data and the
/// ciphertext (SP 800-38D, 7.1). No two texts may be sealed with one key and IV.
pub fn seal_in_place(key: &[u8; 32], iv: &[u8; 12], aad: &[u8], buf: &mut [u8]) -> [u8; 16]
    requires aad { length aad.now < 2 ^ 61 }
    requires text { length buf.old < 2 ^ 36 - 32 }
    ensures text { buf.new ≡ encrypted 8 14 key.now iv.now buf.old }
    ensures tag { result
        ≡ tag_of 8 14 key.now iv.now aad.now (encrypted 8 14 key.now iv.now buf.old) }
{
    seal(&Aes256::expand(key), iv, aad, buf)
}

/// Decrypts a ciphertext in place by AES-256-GCM (SP 800-38D, 7.2).
///
/// `BadTag` where any of the 16 bytes of `tag` differs from the tag of the associated data and the
/// ciphertext. The ciphertext then stays as it was.
pub fn open_in_place(
    key: &[u8; 32],
    iv: &[u8; 12],
    aad: &[u8],
    buf: &mut [u8],
    tag: &[u8; 16],
) -> Result<(), BadTag>
    requires aad { length aad.now < 2 ^ 61 }
    requires text { length buf.old < 2 ^ 36 - 32 }
    ensures accepts { IsOk result ↔ (tag.now ≡ tag_of 8 14 key.now iv.now aad.now buf.old) }
    ensures ok { OnOk result (buf.new ≡ decrypted 8 14 key.now iv.now buf.old) }
    ensures err { OnErr result (buf.new ≡ buf.old) }
{
    unseal(&Aes256::expand(key), iv, aad, buf, tag)
}

/// Seals as `seal_in_place`, with a key of the given size.
pub fn tag_with(size: KeySize, key: &[u8], iv: &[u8; 12], aad: &[u8], text: &mut [u8]) -> [u8; 16]
    requires key { length key.now ≡ 4 * words_of size }
    requires aad { length aad.now < 2 ^ 61 }
    requires text { length text.old < 2 ^ 36 - 32 }
    ensures text { text.new ≡ encrypted (words_of size) (rounds_of size) key.now iv.now text.old }
    ensures tag { result ≡ tag_of (words_of size) (rounds_of size) key.now iv.now aad.now
        (encrypted (words_of size) (rounds_of size) key.now iv.now text.old) }
{
    match size {
        KeySize::K128 => seal(&Aes128::expand(key), iv, aad, text),
        KeySize::K192 => seal(&Aes192::expand(key), iv, aad, text),
        KeySize::K256 => seal(&Aes256::expand(key), iv, aad, text),
    }
}

/// Seals a text and opens it again: a check of both that leaves the text as it was, and gives the tag. What
/// was sealed opens, and gives the text.
pub fn seal_and_open(
    key: &[u8; 32],
    iv: &[u8; 12],
    aad: &[u8],
    buf: &mut [u8],
) -> Result<[u8; 16], BadTag>
    requires aad { length aad.now < 2 ^ 61 }
    requires text { length buf.old < 2 ^ 36 - 32 }
    ensures opens { IsOk result }
    ensures tag { IfOk result (λ tag. tag
        ≡ tag_of 8 14 key.now iv.now aad.now (encrypted 8 14 key.now iv.now buf.old)) }
    ensures same { buf.new ≡ buf.old }

    // The law itself: a ciphertext's text is the one that was encrypted.
    ensures law { decrypted 8 14 key.now iv.now (encrypted 8 14 key.now iv.now buf.old) ≡ buf.old }
{
    let tag = seal_in_place(key, iv, aad, buf);
    open_in_place(key, iv, aad, buf, &tag)?;
    Ok(tag)
}
