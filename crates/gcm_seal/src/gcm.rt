//! GCM over a cipher of any key size (SP 800-38D, 7.1 and 7.2).

ghost use Rattle.std.specs.Prelude.{◌≡◌, ◌-◌, ◌^◌, ◌<◌, ◌↔◌, [], ◌∷◌, ◌++◌, length, IsOk, OnOk, OnErr};
ghost use Rattle.gcm_seal.specs.Gcm.{hash_key, encrypted, decrypted, tag_of};

use crate::ghash::hash;
use crate::hash_key::HashKey;
use crate::sealing::BadTag;
use aes_core::Cipher;

// The IV, and a counter of four bytes.
fn counter_block(iv: &[u8; 12], counter: u8) -> [u8; 16]
    ensures { result ≡ iv.now ++ 0 ∷ 0 ∷ 0 ∷ counter ∷ [] }
{
    let mut block = [0u8; 16];
    block[..12].copy_from_slice(iv);
    block[15] = counter;
    block
}

// The hash key of a cipher: the encryption of zeros.
fn hash_key<const NK: usize, const NR: usize>(cipher: &Cipher<NK, NR>) -> HashKey
    ensures { result ≡ hash_key NK NR cipher.now }
{
    HashKey::new(u128::from_be_bytes(cipher.encrypt([0; 16])))
}

// The tag of associated data and a ciphertext.
pub(crate) fn computed_tag<const NK: usize, const NR: usize>(
    cipher: &Cipher<NK, NR>,
    iv: &[u8; 12],
    aad: &[u8],
    text: &[u8],
) -> [u8; 16]
    requires aad { length aad.now < 2 ^ 61 }
    requires text { length text.now < 2 ^ 36 - 32 }
    ensures { result ≡ tag_of NK NR cipher.now iv.now aad.now text.now }
{
    let mut tag = hash(&hash_key(cipher), aad, text).to_be_bytes();
    cipher.ctr_xor(counter_block(iv, 1), &mut tag);
    tag
}

// Encrypts the text in place, and gives its tag.
pub(crate) fn seal<const NK: usize, const NR: usize>(
    cipher: &Cipher<NK, NR>,
    iv: &[u8; 12],
    aad: &[u8],
    buf: &mut [u8],
) -> [u8; 16]
    requires aad { length aad.now < 2 ^ 61 }
    requires text { length buf.old < 2 ^ 36 - 32 }
    ensures text { buf.new ≡ encrypted NK NR cipher.now iv.now buf.old }
    ensures tag { result
        ≡ tag_of NK NR cipher.now iv.now aad.now (encrypted NK NR cipher.now iv.now buf.old) }
{
    cipher.ctr_xor(counter_block(iv, 2), buf);
    computed_tag(cipher, iv, aad, buf)
}

// Decrypts the ciphertext in place where it has this tag.
pub(crate) fn unseal<const NK: usize, const NR: usize>(
    cipher: &Cipher<NK, NR>,
    iv: &[u8; 12],
    aad: &[u8],
    buf: &mut [u8],
    tag: &[u8; 16],
) -> Result<(), BadTag>
    requires aad { length aad.now < 2 ^ 61 }
    requires text { length buf.old < 2 ^ 36 - 32 }
    ensures accepts { IsOk result ↔ (tag.now ≡ tag_of NK NR cipher.now iv.now aad.now buf.old) }
    ensures ok { OnOk result (buf.new ≡ decrypted NK NR cipher.now iv.now buf.old) }
    ensures err { OnErr result (buf.new ≡ buf.old) }
{
    if computed_tag(cipher, iv, aad, buf) != *tag {
        return Err(BadTag);
    }
    cipher.ctr_xor(counter_block(iv, 2), buf);
    Ok(())
}
