//! Texts and numbers, said where their room is reserved.

ghost use Rattle.std.specs.Prelude.{◌≡◌, ◌+◌, ◌<◌, ◌≤◌, ◌++◌, [], ◌∷◌, length, vec_len, vec_capacity};
ghost use Rattle.std.specs.Fmt.{decimal};

// Says a text, where there is room for it.
pub(crate) fn say(said: &mut Vec<u8>, text: &str)
    requires { vec_len said.old + length text.now ≤ vec_capacity said.old }
    ensures items { said.new.items ≡ said.old.items ++ text.now }
    ensures len { vec_len said.new ≡ vec_len said.old + length text.now }
    ensures room { vec_capacity said.old ≤ vec_capacity said.new }
{
    let _ = said.extend_from_slice(text.as_bytes());
}

// Says one digit, where there is room for it.
fn say_digit(said: &mut Vec<u8>, digit: u8)
    requires small { digit < 10 }
    requires room { vec_len said.old < vec_capacity said.old }
    ensures items { said.new.items ≡ said.old.items ++ (48 + digit) ∷ [] }
    ensures len { vec_len said.new ≡ vec_len said.old + 1 }
    ensures room { vec_capacity said.old ≤ vec_capacity said.new }
{
    let _ = said.push(b'0' + digit);
}

// Says a number in decimal digits, where there is room for them.
#[tactic(auto, using(std::proofs::lemmas::Fmt::decimal_digit))]
pub(crate) fn say_number(said: &mut Vec<u8>, number: u64)
    requires { vec_len said.old + length (decimal number) ≤ vec_capacity said.old }
    ensures items { said.new.items ≡ said.old.items ++ decimal number }
    ensures len { vec_len said.new ≡ vec_len said.old + length (decimal number) }
    ensures room { vec_capacity said.old ≤ vec_capacity said.new }
{
    if number < 10 {
        return say_digit(said, number as u8);
    }
    say_number(said, number / 10);
    say_digit(said, (number % 10) as u8);
}
