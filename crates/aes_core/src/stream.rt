//! A part of a text under the key stream.

ghost use Rattle.std.specs.Prelude.{◌≡◌, ◌≤◌, length};
ghost use Rattle.aes_core.specs.Aes.{xor_bytes};

// XORs a part of at most 16 bytes with a block of the key stream.
pub(crate) fn xor_part(part: &mut [u8], block: &[u8; 16])
    requires { length part.old ≤ 16 }
    ensures { part.new ≡ xor_bytes part.old block.now }
{
    'bytes: for k in 0..part.len() {
        part[k] ^= block[k];
    }
}
