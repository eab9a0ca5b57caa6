//! Reply texts, written into room that the caller has made.

ghost use Rattle.std.specs.Prelude.{◌≡◌, ◌⊎◌, ◌≤◌, ◌+◌, ◌++◌, ◌||◌, ◌==◌, IsTrue, length, vec_capacity, vec_len};
ghost use Rattle.std.specs.List.{list_all};
ghost use Rattle.home_names.specs.Names.{is_name_byte};
ghost use Rattle.client_lang.specs.Replies.{word_of, word_text, token_text, answer_text, is_plain_name, Replies, field_name, fault_text};

use crate::append::{append, append_bytes, append_hex, append_number};
use crate::line::{Field, LineFault};
use crate::listed::{factors, names, push_quoted};
use account_machine::{Answer, FactorLine, Token};
use ct_bytes::{NoMemory, Text};

/// The reply where there is no memory for another.
const NO_MEMORY: &str = "{\"answer\":\"no_memory\"}";

fn word_of(answer: &Answer) -> &'static str
    ensures text { result.now ≡ word_of answer.now }
    ensures short { length result.now ≤ 20 }
{
    match answer {
        Answer::Ok
        | Answer::OkEnds(_)
        | Answer::OkPassword(_)
        | Answer::OkSession { .. }
        | Answer::OkFactors(_)
        | Answer::OkFiles(_)
        | Answer::OkBytes(_) => "ok",
        Answer::PinCleared => "pin_cleared",
        Answer::PinsClear => "pins_clear",
        Answer::Seen(_) => "seen",
        Answer::Exists => "exists",
        Answer::NoHome => "no_home",
        Answer::SessionsSpent => "sessions_spent",
        Answer::UnknownSession => "unknown_session",
        Answer::Expired => "expired",
        Answer::WrongIntent => "wrong_intent",
        Answer::NotAuthorised => "not_authorised",
        Answer::UnknownFactor => "unknown_factor",
        Answer::FactorExists => "factor_exists",
        Answer::PasswordFirst => "password_first",
        Answer::LastPassword => "last_password",
        Answer::TooManyFactors => "too_many_factors",
        Answer::BadSecret => "bad_secret",
        Answer::EditionsSpent => "editions_spent",
        Answer::AlreadyMounted => "already_mounted",
        Answer::NotMounted => "not_mounted",
        Answer::UnknownFile => "unknown_file",
        Answer::TooManyFiles => "too_many_files",
        Answer::TooLarge => "too_large",
        Answer::UnknownAccount => "unknown_account",
        Answer::Wrong => "wrong",
        Answer::Locked => "locked",
        Answer::Delayed(_) => "delayed",
        Answer::TreeLost { .. } => "tree_lost",
        Answer::Damaged(_) => "damaged",
        Answer::StorageFault => "storage_fault",
        Answer::NoMemory => "no_memory",
    }
}

fn append_word(out: &mut Vec<u8>, word: &str)
    requires short { length word.now ≤ 20 }
    requires room { vec_len out.old + 256 ≤ vec_capacity out.old }
    ensures text { out.new.items ≡ out.old.items ++ word_text word.now }
    ensures room { vec_capacity out.old ≤ vec_capacity out.new }
{
    append(out, "{\"answer\":\"");
    append(out, word);
    append(out, "\"}");
}

fn append_ends(out: &mut Vec<u8>, ends: u64)
    requires { vec_len out.old + 256 ≤ vec_capacity out.old }
    ensures text { out.new.items ≡ out.old.items ++ answer_text (Answer.OkEnds ends) }
    ensures room { vec_capacity out.old ≤ vec_capacity out.new }
{
    append(out, "{\"answer\":\"ok\",\"ends\":");
    append_number(out, ends);
    append(out, "}");
}

fn append_token(out: &mut Vec<u8>, token: &Token)
    requires { vec_len out.old + 48 ≤ vec_capacity out.old }
    ensures text { out.new.items ≡ out.old.items ++ token_text token.now }
    ensures len { vec_len out.new ≡ vec_len out.old + 48 }
    ensures room { vec_capacity out.old ≤ vec_capacity out.new }
{
    let mut bytes = [0; 24];
    bytes[..8].copy_from_slice(&token.number.to_be_bytes());
    bytes[8..].copy_from_slice(&token.tail);
    append_hex(out, &bytes);
}

fn append_session(out: &mut Vec<u8>, ends: u64, token: &Token)
    requires { vec_len out.old + 256 ≤ vec_capacity out.old }
    ensures text { out.new.items ≡ out.old.items ++ answer_text (Answer.OkSession ends token.now) }
    ensures room { vec_capacity out.old ≤ vec_capacity out.new }
{
    append(out, "{\"answer\":\"ok\",\"ends\":");
    append_number(out, ends);
    append(out, ",\"token\":\"");
    append_token(out, token);
    append(out, "\"}");
}

fn append_delayed(out: &mut Vec<u8>, seconds: u64)
    requires { vec_len out.old + 256 ≤ vec_capacity out.old }
    ensures text { out.new.items ≡ out.old.items ++ answer_text (Answer.Delayed seconds) }
    ensures room { vec_capacity out.old ≤ vec_capacity out.new }
{
    append(out, "{\"answer\":\"delayed\",\"seconds\":");
    append_number(out, seconds);
    append(out, "}");
}

fn append_tree_lost(out: &mut Vec<u8>, host: &[u8; 32], chip: &[u8; 32])
    requires { vec_len out.old + 256 ≤ vec_capacity out.old }
    ensures text { out.new.items ≡ out.old.items ++ answer_text (Answer.TreeLost host.now chip.now) }
    ensures room { vec_capacity out.old ≤ vec_capacity out.new }
{
    append(out, "{\"answer\":\"tree_lost\",\"chip\":\"");
    append_hex(out, chip);
    append(out, "\",\"host\":\"");
    append_hex(out, host);
    append(out, "\"}");
}

// Adds a list between the ends of its reply, where there is memory for it.
fn append_list(out: &mut Vec<u8>, front: &str, list: &[u8], back: &str)
    requires ends { (length front.now ≤ 32) × (length back.now ≤ 2) }
    requires room { vec_len out.old + 256 ≤ vec_capacity out.old }
    ensures text { (out.new.items ≡ out.old.items ++ (front.now ++ list.now ++ back.now)) ⊎ (out.new.items ≡ out.old.items ++ answer_text Answer.NoMemory) }
    ensures room { vec_capacity out.old ≤ vec_capacity out.new }
{
    if out.reserve(list.len() + 34).is_err() {
        return append(out, NO_MEMORY);
    }
    append(out, front);
    append_bytes(out, list);
    append(out, back);
}

// Whether all bytes are those of records' names.
fn are_plain(bytes: &[u8]) -> bool
    ensures { result ≡ list_all (λ byte. is_name_byte byte || byte == 46) bytes.now }
{
    bytes.iter().all(|byte| byte.is_ascii_lowercase() || byte.is_ascii_digit() || *byte == b'.')
}

/// Whether a name is as short and plain as each record's: at most 166 bytes a to z, 0 to 9 and full stops.
pub fn is_plain_name(name: &str) -> bool
    ensures { result ≡ is_plain_name name.now }
{
    name.len() <= 166 && are_plain(name.as_bytes())
}

fn append_damaged(out: &mut Vec<u8>, name: &str)
    requires { vec_len out.old + 256 ≤ vec_capacity out.old }
    ensures text { Replies (Answer.Damaged name.now) out.old.items out.new.items }
    ensures room { vec_capacity out.old ≤ vec_capacity out.new }
{
    if is_plain_name(name) {
        return append_plain_damaged(out, name);
    }
    let mut text = Vec::new(*out.allocator());
    match push_quoted(&mut text, name) {
        Ok(()) => append_list(out, "{\"answer\":\"damaged\",\"record\":", &text, "}"),
        Err(NoMemory) => append(out, NO_MEMORY),
    }
}

// Nothing in a plain name is escaped.
fn append_plain_damaged(out: &mut Vec<u8>, name: &str)
    requires plain { IsTrue (is_plain_name name.now) }
    requires room { vec_len out.old + 256 ≤ vec_capacity out.old }
    ensures text { out.new.items ≡ out.old.items ++ answer_text (Answer.Damaged name.now) }
    ensures room { vec_capacity out.old ≤ vec_capacity out.new }
{
    append(out, "{\"answer\":\"damaged\",\"record\":\"");
    append(out, name);
    append(out, "\"}");
}

fn append_factors(out: &mut Vec<u8>, lines: &[FactorLine])
    requires { vec_len out.old + 256 ≤ vec_capacity out.old }
    ensures text { Replies (Answer.OkFactors lines.now) out.old.items out.new.items }
    ensures room { vec_capacity out.old ≤ vec_capacity out.new }
{
    match factors(*out.allocator(), lines) {
        Ok(list) => append_list(out, "{\"answer\":\"ok\",\"factors\":[", &list, "]}"),
        Err(NoMemory) => append(out, NO_MEMORY),
    }
}

fn append_files(out: &mut Vec<u8>, files: &[Text])
    requires { vec_len out.old + 256 ≤ vec_capacity out.old }
    ensures text { Replies (Answer.OkFiles files.now) out.old.items out.new.items }
    ensures room { vec_capacity out.old ≤ vec_capacity out.new }
{
    match names(*out.allocator(), files) {
        Ok(list) => append_list(out, "{\"answer\":\"ok\",\"files\":[", &list, "]}"),
        Err(NoMemory) => append(out, NO_MEMORY),
    }
}

fn append_data(out: &mut Vec<u8>, bytes: &[u8])
    requires { vec_len out.old + 256 ≤ vec_capacity out.old }
    ensures text { Replies (Answer.OkBytes bytes.now) out.old.items out.new.items }
    ensures room { vec_capacity out.old ≤ vec_capacity out.new }
{
    match hex::encode(*out.allocator(), bytes) {
        Ok(digits) => append_list(
            out,
            "{\"answer\":\"ok\",\"data\":\"",
            digits.as_bytes(),
            "\"}",
        ),
        Err(_) => append(out, NO_MEMORY),
    }
}

/// Appends the reply for an answer (docs/PROTOCOL.md, "All replies").
///
/// `out` has spare room for 256 bytes. That holds every text but those of factors, files and bytes; where
/// there is no memory for one of these the reply is that of no_memory.
pub fn reply_text(answer: &Answer, out: &mut Vec<u8>)
    requires { vec_len out.old + 256 ≤ vec_capacity out.old }
    ensures text { Replies answer.now out.old.items out.new.items }
    ensures room { vec_capacity out.old ≤ vec_capacity out.new }
{
    match answer {
        Answer::OkEnds(ends) | Answer::OkPassword(ends) => append_ends(out, *ends),
        Answer::OkSession { ends, token } => append_session(out, *ends, token),
        Answer::OkFactors(lines) => append_factors(out, lines.as_slice()),
        Answer::OkFiles(names) => append_files(out, names.as_slice()),
        Answer::OkBytes(bytes) => append_data(out, bytes.as_slice()),
        Answer::Delayed(seconds) => append_delayed(out, *seconds),
        Answer::TreeLost { host, chip } => append_tree_lost(out, host, chip),
        Answer::Damaged(name) => append_damaged(out, name.as_str()),
        _ => append_word(out, word_of(answer)),
    }
}

fn field_name(field: Field) -> &'static str
    ensures text { result.now ≡ field_name field }
    ensures short { length result.now ≤ 8 }
{
    match field {
        Field::Account => "account",
        Field::Intent => "intent",
        Field::Token => "token",
        Field::Seconds => "seconds",
        Field::Label => "label",
        Field::Secret => "secret",
        Field::Kind => "kind",
        Field::Schedule => "schedule",
        Field::Name => "name",
        Field::Data => "data",
    }
}

fn append_bad_field(out: &mut Vec<u8>, field: Field)
    requires { vec_len out.old + 256 ≤ vec_capacity out.old }
    ensures text { out.new.items ≡ out.old.items ++ fault_text (LineFault.BadField field) }
    ensures room { vec_capacity out.old ≤ vec_capacity out.new }
{
    append(
        out,
        "{\"answer\":\"bad_line\",\"fault\":\"bad_field\",\"field\":\"",
    );
    append(out, field_name(field));
    append(out, "\"}");
}

/// Appends the reply to a line that isn't a request (docs/PROTOCOL.md, "All replies").
///
/// `out` has spare room for 256 bytes.
pub fn fault_text(fault: &LineFault, out: &mut Vec<u8>)
    requires { vec_len out.old + 256 ≤ vec_capacity out.old }
    ensures text { out.new.items ≡ out.old.items ++ fault_text fault.now }
    ensures room { vec_capacity out.old ≤ vec_capacity out.new }
{
    match fault {
        LineFault::TooLong => append(out, "{\"answer\":\"bad_line\",\"fault\":\"too_long\"}"),
        LineFault::NotJson => append(out, "{\"answer\":\"bad_line\",\"fault\":\"not_json\"}"),
        LineFault::UnknownOp => append(out, "{\"answer\":\"bad_line\",\"fault\":\"unknown_op\"}"),
        LineFault::BadField(field) => append_bad_field(out, *field),
        LineFault::NoMemory => append(out, NO_MEMORY),
    }
}
