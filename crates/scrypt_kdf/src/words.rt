//! Words of four bytes, low byte first.

ghost use Rattle.std.specs.Prelude.{◌≡◌, ◌+◌, ◌*◌, ◌≤◌, length, take, drop};
ghost use Rattle.std.specs.Int.{w32, from_le_bytes};
ghost use Rattle.scrypt_kdf.specs.Bytes.{words_of, bytes_of};

// The word at place i.
fn word_at(bytes: &[u8], i: usize) -> u32
    requires { 4 * i + 4 ≤ length bytes.now }
    ensures { result ≡ from_le_bytes w32 (take 4 (drop (4 * i) bytes.now)) }
{
    let part = &bytes[4 * i..4 * i + 4];
    u32::from_le_bytes([part[0], part[1], part[2], part[3]])
}

// The words of the bytes, into words.
pub(crate) fn load(bytes: &[u8], words: &mut [u32])
    requires { length bytes.now ≡ 4 * length words.old }
    ensures { words.new ≡ words_of bytes.now (length words.old) }
{
    'loaded: for i in 0..words.len() {
        words[i] = word_at(bytes, i);
    }
}

// The bytes of the words, into bytes.
pub(crate) fn store(words: &[u32], bytes: &mut [u8])
    requires { length bytes.old ≡ 4 * length words.now }
    ensures { bytes.new ≡ bytes_of words.now }
{
    'stored: for i in 0..words.len() {
        bytes[4 * i..4 * i + 4].copy_from_slice(&words[i].to_le_bytes());
    }
}
