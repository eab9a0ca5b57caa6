//! Whether an answer is a certain one.

ghost use Rattle.std.specs.Prelude.{◌≡◌, ◌↔◌, ℕ, List, map, IsTrue};
ghost use Rattle.account_machine.specs.Effect.{line_of, line_without_count};
ghost use Rattle.machine_step.specs.Done.{tail_in};

use account_machine::{Answer, Factor, FactorLine, Kind};
use ct_bytes::{Blob, Text};

/// The tail of the session that an answer starts.
pub fn tail_of(answer: &Answer) -> [u8; 16]
    ensures { result ≡ tail_in answer.now }
{
    match answer {
        Answer::OkSession { token, .. } => token.tail,
        _ => [0; 16],
    }
}

pub fn is_ok(answer: &Answer) -> bool
    ensures { IsTrue result ↔ (answer.now ≡ Answer.Ok) }
{
    matches!(answer, Answer::Ok)
}

pub fn is_ends(answer: &Answer, ends: u64) -> bool
    ensures { IsTrue result ↔ (answer.now ≡ Answer.OkEnds ends) }
{
    match answer {
        Answer::OkEnds(given) => *given == ends,
        _ => false,
    }
}

pub fn is_password(answer: &Answer, ends: u64) -> bool
    ensures { IsTrue result ↔ (answer.now ≡ Answer.OkPassword ends) }
{
    match answer {
        Answer::OkPassword(given) => *given == ends,
        _ => false,
    }
}

pub fn is_session(answer: &Answer, ends: u64, number: u64) -> bool
    ensures { IsTrue result ↔ (answer.now ≡ Answer.OkSession ends (record { number = number; tail = tail_in answer.now })) }
{
    match answer {
        Answer::OkSession { ends: given, token } => *given == ends && token.number == number,
        _ => false,
    }
}

pub fn is_wrong(answer: &Answer) -> bool
    ensures { IsTrue result ↔ (answer.now ≡ Answer.Wrong) }
{
    matches!(answer, Answer::Wrong)
}

pub fn is_locked(answer: &Answer) -> bool
    ensures { IsTrue result ↔ (answer.now ≡ Answer.Locked) }
{
    matches!(answer, Answer::Locked)
}

pub fn is_delayed(answer: &Answer, seconds: u64) -> bool
    ensures { IsTrue result ↔ (answer.now ≡ Answer.Delayed seconds) }
{
    match answer {
        Answer::Delayed(given) => *given == seconds,
        _ => false,
    }
}

pub fn is_seen(answer: &Answer, edition: Option<u64>) -> bool
    ensures { IsTrue result ↔ (answer.now ≡ Answer.Seen edition) }
{
    match answer {
        Answer::Seen(given) => *given == edition,
        _ => false,
    }
}

pub fn is_cleared(answer: &Answer) -> bool
    ensures { IsTrue result ↔ (answer.now ≡ Answer.PinCleared) }
{
    matches!(answer, Answer::PinCleared)
}

pub fn is_clear(answer: &Answer) -> bool
    ensures { IsTrue result ↔ (answer.now ≡ Answer.PinsClear) }
{
    matches!(answer, Answer::PinsClear)
}

pub fn is_bytes(answer: &Answer, bytes: &Blob) -> bool
    ensures { IsTrue result ↔ (answer.now ≡ Answer.OkBytes bytes.now) }
{
    match answer {
        Answer::OkBytes(given) => given == bytes,
        _ => false,
    }
}

// Whether a line is the factor's.
fn is_line(line: &FactorLine, row: &(Text, Factor)) -> bool
    ensures { IsTrue result ↔ (line.now ≡ line_of row.now) }
{
    let wrong = match row.1.kind {
        Kind::Password => None,
        Kind::Pin => Some(row.1.wrong),
    };
    line.label == row.0 && line.kind == row.1.kind && line.wrong == wrong
}

// Whether a line is the factor's without a count.
fn is_line_without_count(line: &FactorLine, row: &(Text, Factor)) -> bool
    ensures { IsTrue result ↔ (line.now ≡ line_without_count row.now) }
{
    line.label == row.0 && line.kind == row.1.kind && line.wrong.is_none()
}

// Whether the lines are the factors'.
fn lists(lines: &[FactorLine], rows: &[(Text, Factor)]) -> bool
    ensures { IsTrue result ↔ (lines.now ≡ map line_of rows.now) }
{
    if lines.len() != rows.len() {
        return false;
    }
    for (at, row) in rows.iter().enumerate() {
        if !is_line(&lines[at], row) {
            return false;
        }
    }
    true
}

// Whether the lines are the factors' without counts.
fn lists_without_counts(lines: &[FactorLine], rows: &[(Text, Factor)]) -> bool
    ensures { IsTrue result ↔ (lines.now ≡ map line_without_count rows.now) }
{
    if lines.len() != rows.len() {
        return false;
    }
    for (at, row) in rows.iter().enumerate() {
        if !is_line_without_count(&lines[at], row) {
            return false;
        }
    }
    true
}

// Whether the names are the files'.
fn names(names: &[Text], rows: &[(Text, Blob)]) -> bool
    ensures { IsTrue result ↔ (names.now ≡ map (λ (row : List ℕ × List ℕ). row.0) rows.now) }
{
    if names.len() != rows.len() {
        return false;
    }
    for (at, row) in rows.iter().enumerate() {
        if names[at] != row.0 {
            return false;
        }
    }
    true
}

pub fn is_factors(answer: &Answer, rows: &[(Text, Factor)]) -> bool
    ensures { IsTrue result ↔ (answer.now ≡ Answer.OkFactors (map line_of rows.now)) }
{
    match answer {
        Answer::OkFactors(given) => lists(given.as_slice(), rows),
        _ => false,
    }
}

pub fn hides_counts(answer: &Answer, rows: &[(Text, Factor)]) -> bool
    ensures { IsTrue result ↔ (answer.now ≡ Answer.OkFactors (map line_without_count rows.now)) }
{
    match answer {
        Answer::OkFactors(given) => lists_without_counts(given.as_slice(), rows),
        _ => false,
    }
}

pub fn is_files(answer: &Answer, rows: &[(Text, Blob)]) -> bool
    ensures { IsTrue result ↔ (answer.now ≡ Answer.OkFiles (map (λ (row : List ℕ × List ℕ). row.0) rows.now)) }
{
    match answer {
        Answer::OkFiles(given) => names(given.as_slice(), rows),
        _ => false,
    }
}
