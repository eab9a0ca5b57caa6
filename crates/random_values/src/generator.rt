//! The generator.

ghost use Rattle.std.specs.Prelude.{◌≡◌, ◌+◌, ◌*◌, ◌%◌, ◌++◌, ◌<◌, ◌^◌, length, codes};
ghost use Rattle.hmac_sha.specs.Hmac.{hmac};
ghost use Rattle.random_values.specs.Stretches.{begun, moved, stretch};

use hmac_sha::{Mac, mac};
use rand_chacha::ChaCha20Rng;
use rand_core::SeedableRng;
use rand_core::utils::fill_bytes_via_u32;
use std::marker::Model;

/// A generator of random values, seen as its key and the place of its next word, from 0.
///
/// Its bytes are the key stream of ChaCha20 with a block counter of 64 bits and the nonce 0, each word
/// in little-endian order. After 2^68 words it begins again.
#[derive(Drop)]
pub struct Generator {
    rng: ChaCha20Rng,
}

impl Model for Generator {
    ghost use Rattle.std.specs.Prelude.{◌≡◌, ◌<◌, ◌^◌};
    ghost use Rattle.random_values.specs.Stretches.{Place};

    ghost Value = { Place };

    ghost view = { λ g. record { key = g.rng.key; position = g.rng.word_pos } };

    ghost invariant = { λ g. (g.rng.stream ≡ 0) × (g.rng.word_pos < 2 ^ 68) };
}

// The bytes that come next.
fn fill(rng: &mut ChaCha20Rng, bytes: &mut [u8], words: usize)
    requires stream { rng.old.stream ≡ 0 }
    requires below { rng.old.word_pos < 2 ^ 68 }
    requires whole { length bytes.old ≡ 4 * words }
    ensures bytes { bytes.new ≡ stretch rng.old.key rng.old.word_pos words }
    ensures moves { rng.new ≡ record rng.old { word_pos = (rng.old.word_pos + words) % 2 ^ 68 } }
{
    let _ = words;
    fill_bytes_via_u32(rng, bytes);
}

impl Generator {
    // The generator under a key.
    fn under(key: [u8; 32]) -> Generator
        ensures { result ≡ begun key }
    {
        Generator {
            rng: ChaCha20Rng::from_seed(key),
        }
    }

    /// The generator of an account. Its key is HMAC-SHA-256 (RFC 2104) under the run's entropy of
    /// `account` followed by the account's name.
    pub fn of_account(entropy: &[u8; 32], account: &str) -> Generator
        ensures { result ≡ begun (hmac entropy.now (codes "account" ++ account.now)) }
    {
        let mut key = Mac::new(entropy);
        key.update(b"account");
        key.update(account.as_bytes());
        Generator::under(key.finish())
    }

    /// The generator of the platform. Its key is HMAC-SHA-256 under the run's entropy of `platform`.
    pub fn of_platform(entropy: &[u8; 32]) -> Generator
        ensures { result ≡ begun (hmac entropy.now (codes "platform")) }
    {
        Generator::under(mac(entropy, b"platform"))
    }

    /// The place of the next word.
    pub fn position(&self) -> u128
        ensures value { result ≡ self.now.position }
        ensures below { self.now.position < 2 ^ 68 }
    {
        self.rng.get_word_pos()
    }

    /// The next 12 bytes, for an IV of AES-GCM.
    pub fn iv(&mut self) -> [u8; 12]
        ensures value { result ≡ stretch self.old.key self.old.position 3 }
        ensures moves { self.new ≡ moved self.old 3 }
    {
        let mut bytes = [0; 12];
        fill(&mut self.rng, &mut bytes, 3);
        bytes
    }

    /// The next 16 bytes, for a salt, a token's tail or the IV of a leaf.
    pub fn salt(&mut self) -> [u8; 16]
        ensures value { result ≡ stretch self.old.key self.old.position 4 }
        ensures moves { self.new ≡ moved self.old 4 }
    {
        let mut bytes = [0; 16];
        fill(&mut self.rng, &mut bytes, 4);
        bytes
    }

    /// The next 32 bytes, for a key or a secret.
    pub fn key(&mut self) -> [u8; 32]
        ensures value { result ≡ stretch self.old.key self.old.position 8 }
        ensures moves { self.new ≡ moved self.old 8 }
    {
        let mut bytes = [0; 32];
        fill(&mut self.rng, &mut bytes, 8);
        bytes
    }
}
