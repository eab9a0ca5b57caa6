//! The MAC of a whole text.

ghost use Rattle.std.specs.Prelude.{◌≡◌};
ghost use Rattle.hmac_sha.specs.Hmac.{hmac};

use crate::pieces::Mac;

/// HMAC-SHA-256 of `text` under `key`, 32 bytes (RFC 2104, section 2, with SHA-256 of FIPS 180-4).
///
/// Key and text have any length. A key of more than 64 bytes is hashed first; a shorter one and the
/// same followed by zero bytes, up to 64 bytes in all, give equal MACs.
pub fn mac(key: &[u8], text: &[u8]) -> [u8; 32]
    ensures { result ≡ hmac key.now text.now }
{
    let mut mac = Mac::new(key);
    mac.update(text);
    mac.finish()
}
