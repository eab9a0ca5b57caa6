//! The wrap key of a PIN.

ghost use Rattle.std.specs.Prelude.{◌≡◌};
ghost use Rattle.secret_stash.specs.Keys.{pin_wrap};

use hmac_sha::Mac;

/// The wrap key of a PIN: HMAC-SHA-256 (RFC 2104) under its leaf's high-entropy secret of `pin wrap`
/// followed by the last 32 of the 64 bytes that were derived of it.
pub fn pin_wrap(high: &[u8; 32], derived: &[u8; 64]) -> [u8; 32]
    ensures value { result ≡ pin_wrap high.now derived.now }
{
    let (_, last) = derived.split_at(32);
    let mut wrap = Mac::new(high);
    wrap.update(b"pin wrap");
    wrap.update(last);
    wrap.finish()
}
