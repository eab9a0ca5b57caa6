//! A chip's words as 256 bytes. Numbers are big-endian.

ghost use Rattle.std.specs.Prelude.{◌≡◌, ◌+◌, ◌≤◌, Ok, IfOk, length};
ghost use Rattle.pw_log.specs.Entry.{IsEntry};
ghost use Rattle.pw_chip.specs.WordsBytes.{entry_at, entry_bytes, has_verdict};

use ct_bytes::Writer;
use pw_leaf::fields::{hash_at, u16_at, u64_at};
use pw_log::{LogEntry, RESET, RIGHT, TRY, WRONG};
use pw_path::LABELS;
use pw_types::{LAST_MOMENT, Stamp};

/// The bytes of a chip's words.
pub const WORDS_BYTES: usize = 256;

/// The version of words.
pub(crate) const VERSION: u8 = 1;

pub(crate) const MAC_KEY_AT: usize = 1;

pub(crate) const CIPHER_KEY_AT: usize = 33;

pub(crate) const BOOT_AT: usize = 65;

pub(crate) const START_AT: usize = 73;

pub(crate) const NEWEST_AT: usize = 81;

pub(crate) const OLDER_AT: usize = 165;

pub(crate) const REST_AT: usize = 249;

/// Why bytes are no words.
#[derive(Clone, Copy, Debug, PartialEq, Eq)]
pub enum WordsFault {
    /// The field at this place is the first that breaks its rule.
    BadWords(usize),
}

// A log entry of 84 bytes.
#[tactic(auto, unfolding(crate::specs::WordsBytes::entry_bytes))]
pub(crate) fn entry_bytes(entry: &LogEntry) -> [u8; 84]
    ensures { result ≡ entry_bytes entry.now }
{
    let mut bytes = [0; 84];
    let mut writer = Writer::new(&mut bytes);
    writer.put_u8(entry.operation).unwrap();
    writer.put_u16(entry.label).unwrap();
    writer.put(&entry.root).unwrap();
    writer.put(&entry.mac).unwrap();
    writer.put_u8(entry.verdict).unwrap();
    writer.put_u64(entry.stamp.boot).unwrap();
    writer.put_u64(entry.stamp.at).unwrap();
    bytes
}

// The log entry at a place.
#[tactic(auto, unfolding(crate::specs::WordsBytes::entry_at))]
pub(crate) fn entry_at(bytes: &[u8], at: usize) -> Result<LogEntry, WordsFault>
    requires { at + 84 ≤ length bytes.now }
    ensures value { result ≡ entry_at bytes.now at }
    ensures ranges { IfOk result IsEntry }
{
    let operation = bytes[at];
    if operation > RESET {
        return Err(WordsFault::BadWords(at));
    }
    let label = u16_at(bytes, at + 1);
    if label >= LABELS {
        return Err(WordsFault::BadWords(at + 1));
    }
    let verdict = bytes[at + 67];
    if !has_verdict(operation, verdict) {
        return Err(WordsFault::BadWords(at + 67));
    }
    let moment = u64_at(bytes, at + 76);
    if moment > LAST_MOMENT {
        return Err(WordsFault::BadWords(at + 76));
    }
    Ok(LogEntry {
        operation,
        label,
        root: hash_at(bytes, at + 3),
        mac: hash_at(bytes, at + 35),
        verdict,
        stamp: Stamp {
            boot: u64_at(bytes, at + 68),
            at: moment,
        },
    })
}

// Whether an entry of this operation can have this verdict.
fn has_verdict(operation: u8, verdict: u8) -> bool
    ensures { result ≡ has_verdict operation verdict }
{
    if operation == TRY {
        verdict == RIGHT || verdict == WRONG
    } else {
        verdict == 0
    }
}
