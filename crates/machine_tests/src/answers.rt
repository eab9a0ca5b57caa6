//! What an account may answer, as scripts write it.

use account_machine::{Answer, FactorLine, FactorLines, FileNames, Kind, Refused, Token};
use client_lang::reply_text;
use ct_bytes::{Blob, NoMemory, Text};
use std::alloc::Global;

/// Labels, names of files, and names of records.
#[derive(Clone, Copy, PartialEq, Eq)]
pub enum Word {
    Nothing,
    Alt,
    Main,
    Pin,
    Pin2,
    Strict,
    A,
    B,
    Note,
    Z,
    Stash,
    Leaf,
    FactorRecord,
    FileRecord,
    Quoted,
    Marks,
    ShortEscapes,
    LongEscapes,
    Accented,
}

const TEXTS: &[(Word, &str)] = &[
    (Word::Alt, "alt"),
    (Word::Main, "main"),
    (Word::Pin, "pin"),
    (Word::Pin2, "pin2"),
    (Word::Strict, "strict"),
    (Word::A, "a"),
    (Word::B, "b"),
    (Word::Note, "note"),
    (Word::Z, "Z"),
    (Word::Stash, "ann.stash"),
    (Word::Leaf, "ann.leaf.00000"),
    (Word::FactorRecord, "ann.fac.pin.2"),
    (Word::FileRecord, "ann.file.6e6f7465"),
    (Word::Quoted, "a\"b"),
    (Word::Marks, "\"\\/"),
    (Word::ShortEscapes, "\u{8}\t\n\u{c}\r"),
    (Word::LongEscapes, "\u{0}\u{b}\u{1f}\u{7f}"),
    (Word::Accented, "\u{e9}"),
];

/// The word's text.
pub fn text_of(word: Word) -> &'static str {
    for (of, text) in TEXTS {
        if *of == word {
            return text;
        }
    }
    ""
}

/// A factor as it is listed: a password, a PIN with its count, a PIN whose count is hidden, or none.
#[derive(Clone, Copy)]
pub enum Listed {
    Password(Word),
    Pin(Word, u32),
    Hidden(Word),
    Nothing,
}

/// An answer. A session has its end and number.
#[derive(Clone, Copy)]
pub enum Say {
    Ok,
    Session(u64, u64),
    Ends(u64),
    Proved(u64),
    Factors([Listed; 3]),
    Files([Word; 3]),
    Bytes(&'static [u8]),
    Seen(Option<u64>),
    Cleared,
    AllClear,
    No(Refused),
    Wrong,
    Locked,
    Delayed(u64),
    Lost,
    Damaged(Word),
    Fault,
    NoMemory,
    Unknown,
}

pub const NO_FACTORS: Say = Say::Factors([Listed::Nothing; 3]);

pub const NO_FILES: Say = Say::Files([Word::Nothing; 3]);

/// The token of a session.
pub fn token(number: u64) -> Token {
    Token {
        number,
        tail: [7; 16],
    }
}

fn line_of(
    alloc: Global,
    label: Word,
    kind: Kind,
    wrong: Option<u32>,
) -> Result<FactorLine, NoMemory> {
    let label = Text::from_str(alloc, text_of(label))?;
    Ok(FactorLine { label, kind, wrong })
}

fn factors(alloc: Global, listed: [Listed; 3]) -> Result<Answer, NoMemory> {
    let mut lines = FactorLines::new(alloc);
    for factor in listed.iter() {
        let (label, kind, wrong) = match *factor {
            Listed::Password(label) => (label, Kind::Password, None),
            Listed::Pin(label, wrong) => (label, Kind::Pin, Some(wrong)),
            Listed::Hidden(label) => (label, Kind::Pin, None),
            Listed::Nothing => continue,
        };
        lines.push(line_of(alloc, label, kind, wrong)?)?;
    }
    Ok(Answer::OkFactors(lines))
}

fn files(alloc: Global, listed: [Word; 3]) -> Result<Answer, NoMemory> {
    let mut names = FileNames::new(alloc);
    for name in listed.iter() {
        if *name != Word::Nothing {
            names.push(Text::from_str(alloc, text_of(*name))?)?;
        }
    }
    Ok(Answer::OkFiles(names))
}

/// The answer.
pub fn answer_of(alloc: Global, say: Say) -> Result<Answer, NoMemory> {
    Ok(match say {
        Say::Ok => Answer::Ok,
        Say::Session(ends, number) => Answer::OkSession {
            ends,
            token: token(number),
        },
        Say::Ends(ends) => Answer::OkEnds(ends),
        Say::Proved(ends) => Answer::OkPassword(ends),
        Say::Factors(listed) => return factors(alloc, listed),
        Say::Files(listed) => return files(alloc, listed),
        Say::Bytes(bytes) => Answer::OkBytes(Blob::from_slice(alloc, bytes)?),
        Say::Seen(edition) => Answer::Seen(edition),
        Say::Cleared => Answer::PinCleared,
        Say::AllClear => Answer::PinsClear,
        Say::No(refused) => refused.answer(),
        Say::Wrong => Answer::Wrong,
        Say::Locked => Answer::Locked,
        Say::Delayed(seconds) => Answer::Delayed(seconds),
        Say::Lost => Answer::TreeLost {
            host: [0xab; 32],
            chip: [0x2c; 32],
        },
        Say::Damaged(name) => Answer::Damaged(Text::from_str(alloc, text_of(name))?),
        Say::Fault => Answer::StorageFault,
        Say::NoMemory => Answer::NoMemory,
        Say::Unknown => Answer::UnknownAccount,
    })
}

/// Whether this is the answer's reply.
pub fn is_reply(alloc: Global, answer: &Answer, reply: &str) -> Result<bool, NoMemory> {
    let mut text = Vec::with_capacity(alloc, 256)?;
    reply_text(answer, &mut text);
    Ok(text.as_slice() == reply.as_bytes())
}
