//! The MAC of a text that comes piece by piece.

ghost use Rattle.std.specs.Prelude.{◌≡◌, ℕ, ◌++◌, List, []};
ghost use Rattle.hmac_sha.specs.Hmac.{hmac};

use crate::pads::{INNER_PAD, OUTER_PAD, key_block, padded};
use sha2::{Digest, Sha256};

/// HMAC-SHA-256 of a text that comes piece by piece.
///
/// Contracts say by `HasTaken` which key it is made with, and which text it has taken in.
#[derive(Drop)]
pub struct Mac {
    inner: Sha256,
    outer: Sha256,
}

impl Mac {
    ghost use Rattle.hmac_sha.specs.Pieces.{HasTaken};

    /// The MAC under `key` of no text yet. A key of more than 64 bytes is hashed first
    /// (RFC 2104, section 2).
    pub fn new(key: &[u8]) -> Mac
        ensures { HasTaken result key.now [] }
    {
        let block = key_block(key);
        let mut inner = Sha256::new();
        inner.update(padded(&block, INNER_PAD).as_slice());
        let mut outer = Sha256::new();
        outer.update(padded(&block, OUTER_PAD).as_slice());
        Mac { inner, outer }
    }

    // An equal one. No memory is taken.
    pub(crate) fn copy(&self) -> Mac
        ensures { result ≡ self.now }
    {
        Mac {
            inner: self.inner.clone().unwrap(),
            outer: self.outer.clone().unwrap(),
        }
    }

    /// Takes in `bytes` after the text so far.
    pub fn update(&mut self, bytes: &[u8])
        ensures { (key text : List ℕ) → HasTaken self.old key text
            → HasTaken self.new key (text ++ bytes.now) }
    {
        self.inner.update(bytes);
    }

    /// The MAC of the text that was taken in: 32 bytes, the digest of the outer pad followed by
    /// the digest of the inner pad and the text (RFC 2104, section 2).
    pub fn finish(self) -> [u8; 32]
        ensures { (key text : List ℕ) → HasTaken self key text → result ≡ hmac key text }
    {
        let Mac { inner, mut outer } = self;
        let digest: [u8; 32] = inner.finalize();
        outer.update(digest.as_slice());
        outer.finalize()
    }
}
