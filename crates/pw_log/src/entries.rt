//! The log of two.

ghost use Rattle.std.specs.Prelude.{◌≡◌, ◌≢◌, ◌↔◌};
ghost use Rattle.pw_log.specs.Entry.{IsEntry};
ghost use Rattle.pw_log.specs.Entries.{pushed, answer_to};

use crate::answer::LogAnswer;
use crate::entry::LogEntry;
use pw_path::Hash;
use std::marker::Model;

/// The newest entry and the one before it, each in its ranges.
#[derive(Clone, Copy, Debug, PartialEq, Eq)]
pub struct Log {
    newest: LogEntry,
    older: LogEntry,
}

impl Model for Log {
    ghost use Rattle.pw_log.specs.Pair.{Entries};
    ghost use Rattle.pw_log.specs.Entry.{IsEntry};

    ghost Value = { Entries };

    ghost view = { λ log. record { newest = log.newest; older = log.older } };

    ghost invariant = { λ log. IsEntry log.newest × IsEntry log.older };

    ghost inverse = { λ entries. record { newest = entries.newest; older = entries.older } };
}

impl Log {
    /// A log of these entries.
    pub fn of(newest: LogEntry, older: LogEntry) -> Log
        requires newest { IsEntry newest }
        requires older { IsEntry older }
        ensures { result ≡ record { newest = newest; older = older } }
    {
        Log { newest, older }
    }

    /// Adds an entry. The older one is dropped.
    pub fn push(&mut self, entry: LogEntry)
        requires { IsEntry entry }
        ensures { self.new ≡ pushed self.old entry }
    {
        self.older = self.newest;
        self.newest = entry;
    }

    /// The newest entry. Its root is the tree's.
    pub fn newest(&self) -> &LogEntry
        ensures value { result.now ≡ self.now.newest }
        ensures ranges { IsEntry result.now }
    {
        &self.newest
    }

    /// The entry before the newest.
    pub fn older(&self) -> &LogEntry
        ensures value { result.now ≡ self.now.older }
        ensures ranges { IsEntry result.now }
    {
        &self.older
    }

    /// Where a host stands whose tree has this root. Where both roots are the host's it is in step.
    pub fn since(&self, host: &Hash) -> LogAnswer
        ensures value { result ≡ answer_to self.now host.now }
        ensures in_step { (result ≡ LogAnswer.InStep) ↔ (self.now.newest.root ≡ host.now) }
        ensures one { self.now.newest.root ≢ host.now
            → self.now.older.root ≡ host.now
            → result ≡ LogAnswer.One self.now.newest }
        ensures unknown { self.now.newest.root ≢ host.now
            → self.now.older.root ≢ host.now
            → result ≡ LogAnswer.RootUnknown host.now self.now.newest.root self.now.older.root }
    {
        if self.newest.root == *host {
            return LogAnswer::InStep;
        }
        if self.older.root == *host {
            return LogAnswer::One(self.newest);
        }
        LogAnswer::RootUnknown {
            host: *host,
            newest: self.newest.root,
            older: self.older.root,
        }
    }
}
