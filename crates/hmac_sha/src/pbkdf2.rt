//! PBKDF2 with one turn.

ghost use Rattle.std.specs.Prelude.{◌≡◌, ℕ, ◌+◌, ◌-◌, ◌*◌, ◌^◌, ◌<◌, ◌≤◌, ◌++◌, List, length};
ghost use Rattle.hmac_sha.specs.Pbkdf2.{pbkdf2_one};

use crate::pieces::Mac;

/// PBKDF2 with HMAC-SHA-256 and one turn (RFC 8018, section 5.2), into the whole of `out`.
///
/// Block `i` of 32 bytes, counted from 1, is the MAC under `password` of `salt` followed by `i` as
/// four bytes, the high one first; the last block is cut. The turn count is the standard's `c` = 1,
/// as scrypt uses it: alone it protects no password.
pub fn pbkdf2_one(password: &[u8], salt: &[u8], out: &mut [u8])
    requires { length out.old < 2 ^ 36 }
    ensures { out.new ≡ pbkdf2_one password.now salt.now (length out.old) }
{
    // The password's pads and the salt are the same for each block.
    let mut salted = Mac::new(password);
    salted.update(salt);
    let len = out.len();
    'blocks_written: for i in 0..(len + 31) / 32 {
        let mut mac = salted.copy();
        mac.update(&((i as u32) + 1).to_be_bytes());
        let block = mac.finish();
        let end = (32 * i + 32).min(len);
        out[32 * i..end].copy_from_slice(&block[..end - 32 * i]);
    }
}
