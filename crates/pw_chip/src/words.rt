//! What a chip keeps.

ghost use Rattle.std.specs.Prelude.{◌≡◌, ◌<◌, ◌≤◌, ◌^◌, IfOk, IfSome};
ghost use Rattle.pw_chip.specs.WordsBytes.{IsWords, words_at, words_bytes};
ghost use Rattle.pw_log.specs.Entry.{IsEntry};
ghost use Rattle.pw_chip.specs.State.{new_state, booted, blank_entry};
ghost use Rattle.pw_chip.specs.Step.{logged};

use crate::bytes::{
    BOOT_AT, CIPHER_KEY_AT, MAC_KEY_AT, NEWEST_AT, OLDER_AT, REST_AT, START_AT, VERSION,
    WORDS_BYTES, WordsFault, entry_at, entry_bytes,
};
use ct_bytes::Writer;
use pw_leaf::ChipKeys;
use pw_leaf::fields::{hash_at, u64_at};
use pw_log::{BLANK, Log, LogEntry, NO_VERDICT};
use pw_path::{Hash, LEVELS, empty_roots};
use pw_types::{LAST_MOMENT, Stamp};
use std::marker::Model;

/// A chip's words: its keys, the number of the present boot and the moment at which it began, and its log.
#[derive(Clone, Copy, Debug, PartialEq, Eq)]
pub struct Words {
    keys: ChipKeys,
    boot: u64,
    start: u64,
    log: Log,
}

impl Model for Words {
    ghost use Rattle.std.specs.Prelude.{◌<◌, ◌^◌};
    ghost use Rattle.pw_chip.specs.State.{ChipState};

    ghost Value = { ChipState };

    ghost view = { λ w. record { keys = w.keys; boot = w.boot; start = w.start; log = w.log } };

    ghost invariant = { λ w. w.start < 2 ^ 40 };

    ghost inverse = { λ w. record { keys = w.keys; boot = w.boot; start = w.start; log = w.log } };
}

impl Words {
    /// The words of a new chip with these keys, whose tree is empty.
    pub fn new(keys: ChipKeys) -> Words
        ensures { result ≡ new_state keys }
    {
        let blank = blank_entry();
        Words {
            keys,
            boot: 0,
            start: 0,
            log: Log::of(blank, blank),
        }
    }

    /// Begins the next boot at a moment, in seconds. The number of the boot stays at 2^64 - 1 once it is
    /// there.
    pub fn boot(&mut self, moment: u64)
        requires { moment < 2 ^ 40 }
        ensures value { self.new ≡ booted self.old moment }
        ensures kept { IsWords self.new }
    {
        self.boot = self.boot.saturating_add(1);
        self.start = moment;
    }

    /// Reads words. They are `None` for a blank chip, whose bytes are all zero.
    ///
    /// The fault is `BadWords` with the place of the first field that breaks its rule. Words that are read can
    /// be kept: so what is written of them is read.
    pub fn read(bytes: &[u8; WORDS_BYTES]) -> Result<Option<Words>, WordsFault>
        ensures value { result ≡ words_at bytes.now }
        ensures kept { IfOk result (λ words. IfSome words IsWords) }
    {
        Words::in_bytes(bytes)
    }

    // What the bytes hold.
    #[tactic(auto, unfolding(crate::specs::WordsBytes::words_at))]
    fn in_bytes(bytes: &[u8; WORDS_BYTES]) -> Result<Option<Words>, WordsFault>
        ensures { result ≡ words_at bytes.now }
    {
        if *bytes == [0; WORDS_BYTES] {
            return Ok(None);
        }
        if bytes[0] != VERSION {
            return Err(WordsFault::BadWords(0));
        }
        let boot = u64_at(bytes, BOOT_AT);
        if boot == 0 {
            return Err(WordsFault::BadWords(BOOT_AT));
        }
        let start = u64_at(bytes, START_AT);
        if start > LAST_MOMENT {
            return Err(WordsFault::BadWords(START_AT));
        }
        let newest = match entry_at(bytes, NEWEST_AT) {
            Ok(newest) => newest,
            Err(fault) => return Err(fault),
        };
        let older = match entry_at(bytes, OLDER_AT) {
            Ok(older) => older,
            Err(fault) => return Err(fault),
        };
        let (_, rest) = bytes.split_at(REST_AT);
        if rest != [0; 7].as_slice() {
            return Err(WordsFault::BadWords(REST_AT));
        }
        let keys = ChipKeys {
            mac: hash_at(bytes, MAC_KEY_AT),
            enc: hash_at(bytes, CIPHER_KEY_AT),
        };
        Ok(Some(Words {
            keys,
            boot,
            start,
            log: Log::of(newest, older),
        }))
    }

    /// The words as bytes.
    #[tactic(auto, unfolding(crate::specs::WordsBytes::words_bytes))]
    pub fn write(&self) -> [u8; WORDS_BYTES]
        requires { 1 ≤ self.now.boot }
        ensures { result ≡ words_bytes self.now }
    {
        let mut bytes = [0; WORDS_BYTES];
        let mut writer = Writer::new(&mut bytes);
        writer.put_u8(VERSION).unwrap();
        writer.put(&self.keys.mac).unwrap();
        writer.put(&self.keys.enc).unwrap();
        writer.put_u64(self.boot).unwrap();
        writer.put_u64(self.start).unwrap();
        writer.put(&entry_bytes(self.log.newest())).unwrap();
        writer.put(&entry_bytes(self.log.older())).unwrap();
        writer.put(&[0; 7]).unwrap();
        bytes
    }

    /// The keys.
    pub fn keys(&self) -> &ChipKeys
        ensures { result.now ≡ self.now.keys }
    {
        &self.keys
    }

    /// The log.
    pub fn log(&self) -> &Log
        ensures { result.now ≡ self.now.log }
    {
        &self.log
    }

    /// The present boot, and the moment at which it began.
    pub fn era(&self) -> Stamp
        ensures value { result ≡ record { boot = self.now.boot; at = self.now.start } }
        ensures moment { result.at < 2 ^ 40 }
    {
        Stamp {
            boot: self.boot,
            at: self.start,
        }
    }

    // The root of the tree.
    pub(crate) fn root(&self) -> Hash
        ensures { result ≡ self.now.log.newest.root }
    {
        self.log.newest().root
    }

    // Notes a call that brings the tree to the entry's root. One that leaves the root changes nothing.
    #[tactic(auto, unfolding(crate::specs::Step::logged))]
    pub(crate) fn note(&mut self, entry: LogEntry)
        requires { IsEntry entry }
        ensures { self.new ≡ logged self.old entry }
    {
        if entry.root != self.root() {
            self.log.push(entry);
        }
    }
}

// An entry that stands for no call, over the empty tree.
#[tactic(auto, unfolding(crate::specs::State::empty_root))]
fn blank_entry() -> LogEntry
    ensures value { result ≡ blank_entry }
    ensures ranges { IsEntry result }
{
    LogEntry {
        operation: BLANK,
        label: 0,
        root: empty_roots()[LEVELS],
        mac: [0; 32],
        verdict: NO_VERDICT,
        stamp: Stamp { boot: 0, at: 0 },
    }
}
