//! Salsa20/8 on a block of 16 words, four lanes at a time.

ghost use Rattle.std.specs.Prelude.{◌≡◌, ◌<◌, [], ◌∷◌, length, slice_index, bit_xor};
ghost use Rattle.std.specs.Int.{w32, rotate_left};
ghost use Rattle.scrypt_kdf.specs.Lists.{xor_words};
ghost use Rattle.scrypt_kdf.specs.Salsa.{add32, mixed_in, row_round, column_round, salsa};
ghost use Rattle.scrypt_kdf.specs.Lanes.{four, in_order, quarter_at};

use std::simd::u32x4;

// A block along its diagonals: lane j has the four words of the quarter round down column j, in its order.
#[derive(Clone, Copy)]
pub(crate) struct Diagonals {
    // Words 0, 5, 10, 15.
    pub a: u32x4,
    // Words 4, 9, 14, 3.
    pub b: u32x4,
    // Words 8, 13, 2, 7.
    pub c: u32x4,
    // Words 12, 1, 6, 11.
    pub d: u32x4,
}

// The words at four places.
#[inline(always)]
fn gathered(words: &[u32], i: usize, j: usize, k: usize, l: usize) -> u32x4
    requires i { i < length words.now }
    requires j { j < length words.now }
    requires k { k < length words.now }
    requires l { l < length words.now }
    ensures { result ≡ slice_index words.now i ∷ slice_index words.now j
        ∷ slice_index words.now k ∷ slice_index words.now l ∷ [] }
{
    u32x4::from_array([words[i], words[j], words[k], words[l]])
}

// The sum of two words in each lane, with the carry dropped.
#[inline(always)]
fn sums(x: u32x4, y: u32x4) -> u32x4
    ensures { result ≡ four (λ j. add32 (slice_index x j) (slice_index y j)) }
{
    x + y
}

// Two words under xor in each lane.
#[inline(always)]
fn under_xor(x: u32x4, y: u32x4) -> u32x4
    ensures { result ≡ four (λ j. bit_xor (slice_index x j) (slice_index y j)) }
{
    x ^ y
}

// The step of a quarter round in each lane: a under xor with the sum of b and c, turned to the left by k bits.
#[inline(always)]
fn mixed_in(a: u32x4, b: u32x4, c: u32x4, k: u32) -> u32x4
    requires { (0 < k) × (k < 32) }
    ensures { result ≡ four (λ j. mixed_in (slice_index a j) (slice_index b j) (slice_index c j) k) }
{
    let sum = sums(b, c);
    under_xor(a, turned(sum, k))
}

// Each lane turned to the left by k bits.
#[inline(always)]
fn turned(x: u32x4, k: u32) -> u32x4
    requires { (0 < k) × (k < 32) }
    ensures { result ≡ four (λ j. rotate_left w32 (slice_index x j) k) }
{
    (x << u32x4::splat(k)) | (x >> u32x4::splat(32 - k))
}

// The quarter round of each lane.
#[inline(always)]
fn quarter_rounds(x: Diagonals) -> Diagonals
    ensures a { result.a ≡ four (λ j. (quarter_at x j).0) }
    ensures b { result.b ≡ four (λ j. (quarter_at x j).1) }
    ensures c { result.c ≡ four (λ j. (quarter_at x j).2) }
    ensures d { result.d ≡ four (λ j. (quarter_at x j).3) }
{
    let b = mixed_in(x.b, x.a, x.d, 7);
    let c = mixed_in(x.c, b, x.a, 9);
    let d = mixed_in(x.d, c, b, 13);
    let a = mixed_in(x.a, d, c, 18);
    Diagonals { a, b, c, d }
}

// The block with rows for columns: what lay along the diagonals lies along them again.
#[inline(always)]
fn transposed(x: Diagonals) -> Diagonals
    requires { (length x.b ≡ 4) × (length x.c ≡ 4) × (length x.d ≡ 4) }
    ensures a { result.a ≡ x.a }
    ensures b { result.b ≡ slice_index x.d 1 ∷ slice_index x.d 2 ∷ slice_index x.d 3 ∷ slice_index x.d 0 ∷ [] }
    ensures c { result.c ≡ slice_index x.c 2 ∷ slice_index x.c 3 ∷ slice_index x.c 0 ∷ slice_index x.c 1 ∷ [] }
    ensures d { result.d ≡ slice_index x.b 3 ∷ slice_index x.b 0 ∷ slice_index x.b 1 ∷ slice_index x.b 2 ∷ [] }
{
    Diagonals {
        a: x.a,
        b: x.d.rotate_elements_left::<1>(),
        c: x.c.rotate_elements_left::<2>(),
        d: x.b.rotate_elements_left::<3>(),
    }
}

// The quarter rounds down the columns, and those along the rows.
#[inline(always)]
fn double_round(x: Diagonals) -> Diagonals
    ensures { in_order result ≡ row_round (column_round (in_order x)) }
{
    let down = transposed(quarter_rounds(x));
    transposed(quarter_rounds(down))
}

// Four double rounds, and the block that they began with added.
#[inline(always)]
pub(crate) fn salsa(x: Diagonals) -> Diagonals
    ensures { in_order result ≡ salsa (in_order x) }
{
    let mut z = x;
    'rounds: for round in 0..4usize {
        z = double_round(z);
    }
    Diagonals {
        a: sums(z.a, x.a),
        b: sums(z.b, x.b),
        c: sums(z.c, x.c),
        d: sums(z.d, x.d),
    }
}

// The block of 16 words.
#[inline(always)]
pub(crate) fn block_of(words: &[u32]) -> Diagonals
    requires { length words.now ≡ 16 }
    ensures { in_order result ≡ words.now }
{
    Diagonals {
        a: gathered(words, 0, 5, 10, 15),
        b: gathered(words, 4, 9, 14, 3),
        c: gathered(words, 8, 13, 2, 7),
        d: gathered(words, 12, 1, 6, 11),
    }
}

// The block under xor with 16 words.
#[inline(always)]
pub(crate) fn xored(x: Diagonals, words: &[u32]) -> Diagonals
    requires { length words.now ≡ 16 }
    ensures { in_order result ≡ xor_words (in_order x) words.now }
{
    let y = block_of(words);
    Diagonals {
        a: under_xor(x.a, y.a),
        b: under_xor(x.b, y.b),
        c: under_xor(x.c, y.c),
        d: under_xor(x.d, y.d),
    }
}

// The words of the block.
#[inline(always)]
pub(crate) fn words_of(x: Diagonals) -> [u32; 16]
    ensures { result ≡ in_order x }
{
    let [x0, x5, x10, x15] = x.a.to_array();
    let [x4, x9, x14, x3] = x.b.to_array();
    let [x8, x13, x2, x7] = x.c.to_array();
    let [x12, x1, x6, x11] = x.d.to_array();
    [
        x0, x1, x2, x3, x4, x5, x6, x7, x8, x9, x10, x11, x12, x13, x14, x15,
    ]
}
