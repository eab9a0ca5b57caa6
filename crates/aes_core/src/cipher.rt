//! The cipher under a key, for each of the three key sizes.

ghost use Rattle.std.specs.Prelude.{◌≡◌, ◌-◌, ◌*◌, ◌^◌, ◌<◌, length};
ghost use Rattle.aes_core.specs.Aes.{cipher, IsKeySize};
ghost use Rattle.aes_core.specs.Counter.{gctr};
ghost use Rattle.aes_core.specs.Words.{state_bytes};

use crate::rounds::after_rounds;
use crate::schedule::{expanded, load_word};
use crate::stream::xor_part;
use std::marker::Model;

/// AES with a key of 128 bits.
pub type Aes128 = Cipher<4, 10>;

/// AES with a key of 192 bits.
pub type Aes192 = Cipher<6, 12>;

/// AES with a key of 256 bits.
pub type Aes256 = Cipher<8, 14>;

/// AES with a key of `NK` words of 32 bits and `NR` rounds (FIPS 197, section 5).
///
/// Contracts see a cipher as the bytes of its key.
#[derive(Drop)]
pub struct Cipher<const NK: usize, const NR: usize> {
    // The key schedule, and zeros after its `4 * (NR + 1)` words.
    words: [u32; 60],
}

impl<const NK: usize, const NR: usize> Model for Cipher<NK, NR> {
    ghost use Rattle.std.specs.Prelude.{ℕ, List};
    ghost use Rattle.aes_core.specs.Words.{key_of, IsSchedule};

    ghost Value = { List ℕ };

    ghost view = { λ c. key_of NK c.words };

    ghost invariant = { λ c. IsSchedule NK NR c.words };
}

impl<const NK: usize, const NR: usize> Cipher<NK, NR> {
    /// The cipher under a key of `4 * NK` bytes (FIPS 197, 5.2).
    ///
    /// `NK` and `NR` are 4 and 10, 6 and 12, or 8 and 14, as in the aliases.
    pub fn expand(key: &[u8]) -> Cipher<NK, NR>
        requires size { IsKeySize NK NR }
        requires key { length key.now ≡ 4 * NK }
        ensures { result ≡ key.now }
    {
        Cipher {
            words: expanded(NK, NR, key),
        }
    }

    /// The encryption of a block (FIPS 197, 5.1).
    pub fn encrypt(&self, block: [u8; 16]) -> [u8; 16]
        ensures { result ≡ cipher NK NR self.now block }
    {
        let a = load_word(&block, 0);
        let b = load_word(&block, 4);
        let c = load_word(&block, 8);
        let d = load_word(&block, 12);
        self.encrypt_words(a, b, c, d)
    }

    /// XORs the bytes with the encryptions of `first`, of the block after it, and so on: GCTR of
    /// SP 800-38D, 6.5. A block is followed by the one whose last four bytes, as a big-endian
    /// number, are one more, without a carry out of them. The same call on the result gives the
    /// bytes back.
    pub fn ctr_xor(&self, first: [u8; 16], buf: &mut [u8])
        requires { length buf.old < 2 ^ 36 - 32 }
        ensures { buf.new ≡ gctr NK NR self.now first buf.old }
    {
        let a = load_word(&first, 0);
        let b = load_word(&first, 4);
        let c = load_word(&first, 8);
        let mut d = load_word(&first, 12);
        let len = buf.len();
        'turns: for i in 0..(len + 15) / 16 {
            let block = self.encrypt_words(a, b, c, d);
            let end = (16 * i + 16).min(len);
            xor_part(&mut buf[16 * i..end], &block);
            d = d.wrapping_add(1);
        }
    }

    // The encryption of the block in four words.
    #[inline(always)]
    fn encrypt_words(&self, a: u32, b: u32, c: u32, d: u32) -> [u8; 16]
        ensures { result ≡ cipher NK NR self.now (state_bytes a b c d) }
    {
        let (a, b, c, d) = after_rounds(&self.words, NR, a, b, c, d);
        let [b0, b1, b2, b3] = a.to_be_bytes();
        let [b4, b5, b6, b7] = b.to_be_bytes();
        let [b8, b9, b10, b11] = c.to_be_bytes();
        let [b12, b13, b14, b15] = d.to_be_bytes();
        [
            b0, b1, b2, b3, b4, b5, b6, b7, b8, b9, b10, b11, b12, b13, b14, b15,
        ]
    }
}
