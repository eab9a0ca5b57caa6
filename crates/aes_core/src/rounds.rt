//! The rounds (FIPS 197, 5.1) on the four words of a state.

ghost use Rattle.std.specs.Prelude.{◌≡◌, ◌<◌, ◌≤◌};
ghost use Rattle.aes_core.specs.Aes.{cipher_with};
ghost use Rattle.aes_core.specs.Words.{state_bytes};

use crate::columns::{column, last_column};

// A round with MixColumns, with the key words from `$at` on.
macro_rules! round {
    ($words:expr, $at:expr, $a:ident, $b:ident, $c:ident, $d:ident) => {
        let a = column($a, $b, $c, $d, $words[$at]);
        let b = column($b, $c, $d, $a, $words[$at + 1]);
        let c = column($c, $d, $a, $b, $words[$at + 2]);
        let d = column($d, $a, $b, $c, $words[$at + 3]);
        $a = a;
        $b = b;
        $c = c;
        $d = d;
    };
}

// The state after all `nr` rounds, from the words of a block.
#[inline]
pub(crate) fn after_rounds(
    words: &[u32; 60],
    nr: usize,
    a: u32,
    b: u32,
    c: u32,
    d: u32,
) -> (u32, u32, u32, u32)
    requires { (0 < nr) × (nr ≤ 14) }
    ensures { state_bytes result.0 result.1 result.2 result.3
        ≡ cipher_with words.now nr (state_bytes a b c d) }
{
    let mut e = a ^ words[0];
    let mut f = b ^ words[1];
    let mut g = c ^ words[2];
    let mut h = d ^ words[3];
    'rounds: for r in 0..nr - 1 {
        round!(words, 4 * (r + 1), e, f, g, h);
    }
    (
        last_column(e, f, g, h, words[4 * nr]),
        last_column(f, g, h, e, words[4 * nr + 1]),
        last_column(g, h, e, f, words[4 * nr + 2]),
        last_column(h, e, f, g, words[4 * nr + 3]),
    )
}
