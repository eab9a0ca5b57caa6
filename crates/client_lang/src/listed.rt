//! Texts of lists, which take memory.

ghost use Rattle.std.specs.Prelude.{◌≡◌, ◌<◌, ◌++◌, [], ◌∷◌, IfOk, OnOk, codes, flat_map};
ghost use Rattle.hex.specs.Hex.{encode_lower};
ghost use Rattle.client_lang.specs.Replies.{escaped, quoted, listed, kind_word, count_text, line_text};

use account_machine::{FactorLine, Kind};
use ct_bytes::{NoMemory, Text};
use std::alloc::Global;

fn push(text: &mut Vec<u8>, more: &str) -> Result<(), NoMemory>
    ensures { OnOk result (text.new.items ≡ text.old.items ++ more.now) }
{
    text.extend_from_slice(more.as_bytes())?;
    Ok(())
}

// A control character without a short escape, by its number in hexadecimal digits.
fn push_control(text: &mut Vec<u8>, byte: u8) -> Result<(), NoMemory>
    requires { byte < 32 }
    ensures { OnOk result (text.new.items ≡ text.old.items ++ codes "\\u00" ++ encode_lower (byte ∷ [])) }
{
    let mut digits = [0; 2];
    let _ = hex::encode_to_slice([byte], &mut digits);
    push(text, "\\u00")?;
    text.extend_from_slice(&digits)?;
    Ok(())
}

// A byte of a JSON string, escaped where it has to be.
fn push_escaped(text: &mut Vec<u8>, byte: u8) -> Result<(), NoMemory>
    ensures { OnOk result (text.new.items ≡ text.old.items ++ escaped byte) }
{
    match byte {
        b'"' => push(text, "\\\""),
        b'\\' => push(text, "\\\\"),
        8 => push(text, "\\b"),
        9 => push(text, "\\t"),
        10 => push(text, "\\n"),
        12 => push(text, "\\f"),
        13 => push(text, "\\r"),
        0..=31 => push_control(text, byte),
        _ => {
            text.push(byte)?;
            Ok(())
        }
    }
}

// The bytes of a JSON string, each escaped where it has to be.
fn push_all(text: &mut Vec<u8>, bytes: &[u8]) -> Result<(), NoMemory>
    ensures { OnOk result (text.new.items ≡ text.old.items ++ flat_map escaped bytes.now) }
{
    for byte in bytes {
        push_escaped(text, *byte)?;
    }
    Ok(())
}

/// Adds a text as a JSON string.
pub fn push_quoted(text: &mut Vec<u8>, string: &str) -> Result<(), NoMemory>
    ensures { OnOk result (text.new.items ≡ text.old.items ++ quoted string.now) }
{
    push(text, "\"")?;
    push_all(text, string.as_bytes())?;
    push(text, "\"")
}

fn kind_word(kind: Kind) -> &'static str
    ensures { result.now ≡ kind_word kind }
{
    match kind {
        Kind::Password => "password",
        Kind::Pin => "pin",
    }
}

// A factor's count, and the end of its line.
fn push_count(text: &mut Vec<u8>, kind: Kind, wrong: Option<u32>) -> Result<(), NoMemory>
    ensures { OnOk result (text.new.items ≡ text.old.items ++ count_text kind wrong) }
{
    match (kind, wrong) {
        (Kind::Password, _) => push(text, "}"),
        (Kind::Pin, None) => push(text, ",\"wrong\":null}"),
        (Kind::Pin, Some(count)) => {
            let mut digits = itoa::Buffer::new();
            push(text, ",\"wrong\":")?;
            push(text, digits.format(count))?;
            push(text, "}")
        }
    }
}

fn push_line(text: &mut Vec<u8>, line: &FactorLine) -> Result<(), NoMemory>
    ensures { OnOk result (text.new.items ≡ text.old.items ++ line_text line.now) }
{
    push(text, "{\"kind\":\"")?;
    push(text, kind_word(line.kind))?;
    push(text, "\",\"label\":")?;
    push_quoted(text, line.label.as_str())?;
    push_count(text, line.kind, line.wrong)
}

// A further line.
fn push_next_line(text: &mut Vec<u8>, line: &FactorLine) -> Result<(), NoMemory>
    ensures { OnOk result (text.new.items ≡ text.old.items ++ 44 ∷ line_text line.now) }
{
    push(text, ",")?;
    push_line(text, line)
}

// A further name.
fn push_next_name(text: &mut Vec<u8>, name: &Text) -> Result<(), NoMemory>
    ensures { OnOk result (text.new.items ≡ text.old.items ++ 44 ∷ quoted name.now) }
{
    push(text, ",")?;
    push_quoted(text, name.as_str())
}

fn push_next_lines(text: &mut Vec<u8>, lines: &[FactorLine]) -> Result<(), NoMemory>
    ensures { OnOk result (text.new.items ≡ text.old.items ++ flat_map (λ line. 44 ∷ line_text line) lines.now) }
{
    for line in lines {
        push_next_line(text, line)?;
    }
    Ok(())
}

fn push_next_names(text: &mut Vec<u8>, names: &[Text]) -> Result<(), NoMemory>
    ensures { OnOk result (text.new.items ≡ text.old.items ++ flat_map (λ name. 44 ∷ quoted name) names.now) }
{
    for name in names {
        push_next_name(text, name)?;
    }
    Ok(())
}

/// The lines of factors, with commas between them.
pub fn factors(alloc: Global, lines: &[FactorLine]) -> Result<Vec<u8>, NoMemory>
    ensures { IfOk result (λ text. text.items ≡ listed line_text lines.now) }
{
    let mut text = Vec::new(alloc);
    let Some((first, rest)) = lines.split_first() else {
        return Ok(text);
    };
    push_line(&mut text, first)?;
    push_next_lines(&mut text, rest)?;
    Ok(text)
}

/// The names of files, with commas between them.
pub fn names(alloc: Global, names: &[Text]) -> Result<Vec<u8>, NoMemory>
    ensures { IfOk result (λ text. text.items ≡ listed quoted names.now) }
{
    let mut text = Vec::new(alloc);
    let Some((first, rest)) = names.split_first() else {
        return Ok(text);
    };
    push_quoted(&mut text, first.as_str())?;
    push_next_names(&mut text, rest)?;
    Ok(text)
}
