//! Text added to replies where there is room for it. None of these takes memory.

ghost use Rattle.std.specs.Prelude.{◌≡◌, ◌≤◌, ◌+◌, ◌*◌, ◌++◌, length, decimal, vec_capacity, vec_len};
ghost use Rattle.hex.specs.Hex.{encode_lower};

/// Adds bytes.
pub fn append_bytes(out: &mut Vec<u8>, bytes: &[u8])
    requires { vec_len out.old + length bytes.now ≤ vec_capacity out.old }
    ensures items { out.new.items ≡ out.old.items ++ bytes.now }
    ensures len { vec_len out.new ≡ vec_len out.old + length bytes.now }
    ensures room { vec_capacity out.old ≤ vec_capacity out.new }
{
    let _ = out.extend_from_slice(bytes);
}

/// Adds text.
pub fn append(out: &mut Vec<u8>, text: &str)
    requires { vec_len out.old + length text.now ≤ vec_capacity out.old }
    ensures items { out.new.items ≡ out.old.items ++ text.now }
    ensures len { vec_len out.new ≡ vec_len out.old + length text.now }
    ensures room { vec_capacity out.old ≤ vec_capacity out.new }
{
    append_bytes(out, text.as_bytes());
}

/// Adds a number in decimal, which has at most 20 digits.
pub fn append_number(out: &mut Vec<u8>, number: u64)
    requires { vec_len out.old + 20 ≤ vec_capacity out.old }
    ensures items { out.new.items ≡ out.old.items ++ decimal number }
    ensures len { vec_len out.new ≤ vec_len out.old + 20 }
    ensures room { vec_capacity out.old ≤ vec_capacity out.new }
{
    let mut digits = itoa::Buffer::new();
    append(out, digits.format(number));
}

/// Adds at most 32 bytes as lower-case hexadecimal digits.
pub fn append_hex(out: &mut Vec<u8>, bytes: &[u8])
    requires few { length bytes.now ≤ 32 }
    requires room { vec_len out.old + 2 * length bytes.now ≤ vec_capacity out.old }
    ensures items { out.new.items ≡ out.old.items ++ encode_lower bytes.now }
    ensures len { vec_len out.new ≡ vec_len out.old + 2 * length bytes.now }
    ensures room { vec_capacity out.old ≤ vec_capacity out.new }
{
    let mut room = [0; 64];
    let digits = &mut room[..2 * bytes.len()];
    let _ = hex::encode_to_slice(bytes, digits);
    append_bytes(out, digits);
}
