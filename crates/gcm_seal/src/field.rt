//! The product in GF(2^128), bit by bit (SP 800-38D, 6.3).

ghost use Rattle.std.specs.Prelude.{◌≡◌};
ghost use Rattle.gcm_seal.specs.Field128.{shifted, product};

// The bits 11100001, then 120 zeros.
const REDUCTION: u128 = 0xe1 << 120;

// A block shifted to the right by a bit, and reduced where a one fell off.
pub(crate) fn shifted(v: u128) -> u128
    ensures { result ≡ shifted v }
{
    if v & 1 == 1 {
        (v >> 1) ^ REDUCTION
    } else {
        v >> 1
    }
}

/// The product of two blocks in GF(2^128), each read as a big-endian number: the standard's own
/// steps. `HashKey::product` gives the same, faster.
pub fn product(x: u128, y: u128) -> u128
    ensures { result ≡ product x y }
{
    let mut z = 0u128;
    let mut v = y;
    'bits: for i in 0..128u32 {
        if (x >> (127 - i)) & 1 == 1 {
            z ^= v;
        }
        v = shifted(v);
    }
    z
}
