//! The own work of steps on records.

ghost use Rattle.std.specs.Prelude.{◌≡◌, ◌↔◌, ◌⊎◌, ◌≤◌, ◌<◌, Some, ℕ, List, length, Contains, IsTrue, bytes_eq};
ghost use Rattle.std.specs.Prelude.{IfOk, OnOk, IfErr, IsErrOf, IsPermutation, IsSorted};
ghost use Rattle.std.specs.Ordering.{nat_cmp};
ghost use Rattle.std.specs.Cmp.Lexicographic.{slice_cmp};
ghost use Rattle.std.specs.List.{IsDistinct};
ghost use Rattle.fault_count.specs.Causes.{HasCause};
ghost use Rattle.board_model.specs.Disk.{Image, Unchanged};
ghost use Rattle.cabinet.specs.Names.{HasRoom, with_name};
ghost use Rattle.cabinet.specs.Named.{IsThere};
ghost use Rattle.share_api.specs.Contents.{Bytes};
ghost use Rattle.share_api.specs.declared.step.Op.{Op};
ghost use Rattle.share_api.specs.declared.step.Write.{Write};
ghost use Rattle.share_api.specs.declared.step.Reply.{Reply};
ghost use Rattle.platform_core.specs.Records.{account_at, AreNames};
ghost use Rattle.platform_core.specs.Asked.{IsFinding, IsDone, IsListing};
ghost use Rattle.platform_core.specs.Picks.{Picked, Adds, AreFewer};
ghost use Rattle.platform_core.specs.Standing.{Answers, Looked};
ghost use Rattle.platform_core.specs.Unsure.{NamesKnown};
ghost use Rattle.platform_core.specs.Kept.{board_of, names_of, accounts_of, most_of, memory_of};

use crate::names::{own_names, sorted};
use crate::records::Records;
use board_model::Board;
use cabinet::CabinetFault;
use record_names::RecordName;
use share_api::{Listing, Reply};
use std::alloc::Global;

// The names in rising order of their bytes, as a cabinet answers.
fn in_order(names: Vec<RecordName>) -> Result<Vec<RecordName>, CabinetFault>
    ensures permutation { IfOk result (λ sorted. IsPermutation names.items sorted.items) }
    ensures rising { IfOk result (λ sorted. IsSorted (slice_cmp nat_cmp) sorted.items) }
    ensures only { IfErr result (λ fault. fault ≡ CabinetFault.NoMemory) }
{
    match sorted(names) {
        Ok(names) => Ok(names),
        Err(_) => Err(CabinetFault::NoMemory),
    }
}

impl<B: Board> Records<B> {
    /// The bytes of a record.
    pub(crate) fn get(&mut self, alloc: Global, name: &RecordName) -> Reply
        ensures answers { (account : Bytes) → Answers account (B.disk (board_of self.old)) (B.disk (board_of self.new))
            (memory_of self.old) (memory_of self.new) (Op.Get name.now) result }
        ensures replied { IsFinding result }
        ensures cause { HasCause (B.faults (board_of self.old)) (B.faults (board_of self.new))
            (result ≡ Reply.Failed) }
        ensures fewer { AreFewer (names_of self.old) (names_of self.new) }
        ensures accounts { accounts_of self.new ≡ accounts_of self.old }
        ensures most { most_of self.new ≡ most_of self.old }
    {
        match self.cabinet.get(alloc, name) {
            Ok(found) => {
                self.unsure = self.unsure.without(name);
                Reply::Found(found)
            }
            Err(CabinetFault::Failed) => Reply::Failed,
            Err(_) => Reply::NoMemory,
        }
    }

    /// Makes or replaces a record.
    pub(crate) fn put(&mut self, name: &RecordName, bytes: &[u8]) -> Reply
        requires room { HasRoom (names_of self.old) (most_of self.old) name.now }
        requires size { length bytes.now ≤ 49181 }
        ensures answers { (account : Bytes) → Answers account (B.disk (board_of self.old)) (B.disk (board_of self.new))
            (memory_of self.old) (memory_of self.new) (Op.Do (Write.Put name.now bytes.now)) result }
        ensures replied { IsDone result }
        ensures cause { HasCause (B.faults (board_of self.old)) (B.faults (board_of self.new))
            (result ≡ Reply.Failed) }
        ensures names { names_of self.new ≡ with_name (names_of self.old) name.now }
        ensures accounts { accounts_of self.new ≡ accounts_of self.old }
        ensures most { most_of self.new ≡ most_of self.old }
    {
        match self.cabinet.put(name, bytes) {
            Ok(()) => {
                self.unsure = self.unsure.without(name);
                Reply::Done
            }
            Err(_) => {
                self.unsure = self.unsure.with(name);
                Reply::Failed
            }
        }
    }

    /// Removes a record.
    pub(crate) fn remove(&mut self, name: &RecordName) -> Reply
        ensures answers { (account : Bytes) → Answers account (B.disk (board_of self.old)) (B.disk (board_of self.new))
            (memory_of self.old) (memory_of self.new) (Op.Do (Write.Remove name.now)) result }
        ensures replied { IsDone result }
        ensures cause { HasCause (B.faults (board_of self.old)) (B.faults (board_of self.new))
            (result ≡ Reply.Failed) }
        ensures fewer { AreFewer (names_of self.old) (names_of self.new) }
        ensures accounts { accounts_of self.new ≡ accounts_of self.old }
        ensures most { most_of self.new ≡ most_of self.old }
    {
        match self.cabinet.remove(name) {
            Ok(()) => {
                self.unsure = self.unsure.without(name);
                Reply::Done
            }
            Err(_) => {
                self.unsure = self.unsure.with(name);
                Reply::Failed
            }
        }
    }

    // Whether the record of a name that is held is there. An unsure name is looked at.
    fn is_there(&mut self, alloc: Global, name: &RecordName) -> Result<bool, CabinetFault>
        ensures there { IfOk result (λ there. (now : Image) → (B.disk (board_of self.old)).now ≡ Some now
            → NamesKnown now (memory_of self.old)
            → Contains (names_of self.old) name.now
            → IsTrue there ↔ IsThere now name.now) }
        ensures looked { Looked (B.disk (board_of self.old)) (B.disk (board_of self.new)) (memory_of self.old)
            (memory_of self.new) }
        // No other name is forgotten.
        ensures others { (q : Bytes) → (q ≡ name.now → ⊥) → Contains (names_of self.old) q
            → Contains (names_of self.new) q }
        ensures cause { HasCause (B.faults (board_of self.old)) (B.faults (board_of self.new))
            (IsErrOf result CabinetFault.Failed) }
        ensures accounts { accounts_of self.new ≡ accounts_of self.old }
        ensures most { most_of self.new ≡ most_of self.old }
    {
        if !self.unsure.has(name) {
            return Ok(true);
        }
        match self.cabinet.get(alloc, name) {
            Ok(found) => {
                self.unsure = self.unsure.without(name);
                Ok(found.is_some())
            }
            Err(fault) => Err(fault),
        }
    }

    // Adds the name, if its record is there.
    fn add_there(
        &mut self,
        alloc: Global,
        there: &mut Vec<RecordName>,
        name: &RecordName,
    ) -> Result<(), CabinetFault>
        ensures there { OnOk result ((now : Image) → (B.disk (board_of self.old)).now ≡ Some now
            → NamesKnown now (memory_of self.old)
            → Contains (names_of self.old) name.now
            → Adds (IsThere now) name.now there.old.items there.new.items) }
        ensures looked { Looked (B.disk (board_of self.old)) (B.disk (board_of self.new)) (memory_of self.old)
            (memory_of self.new) }
        // No other name is forgotten.
        ensures others { (q : Bytes) → (q ≡ name.now → ⊥) → Contains (names_of self.old) q
            → Contains (names_of self.new) q }
        ensures cause { HasCause (B.faults (board_of self.old)) (B.faults (board_of self.new))
            (IsErrOf result CabinetFault.Failed) }
        ensures accounts { accounts_of self.new ≡ accounts_of self.old }
        ensures most { most_of self.new ≡ most_of self.old }
    {
        match self.is_there(alloc, name) {
            Ok(false) => Ok(()),
            Ok(true) => match there.push(*name) {
                Ok(()) => Ok(()),
                Err(_) => Err(CabinetFault::NoMemory),
            },
            Err(fault) => Err(fault),
        }
    }

    // Those of these names whose records are there.
    fn those_there(
        &mut self,
        alloc: Global,
        own: &[RecordName],
    ) -> Result<Vec<RecordName>, CabinetFault>
        ensures there { IfOk result (λ there. (now : Image) → (B.disk (board_of self.old)).now ≡ Some now
            → NamesKnown now (memory_of self.old)
            → IsDistinct bytes_eq own.now
            → ((q : Bytes) → Contains own.now q → Contains (names_of self.old) q)
            → Picked (IsThere now) own.now there.items) }
        ensures looked { Looked (B.disk (board_of self.old)) (B.disk (board_of self.new)) (memory_of self.old)
            (memory_of self.new) }
        ensures cause { HasCause (B.faults (board_of self.old)) (B.faults (board_of self.new))
            (IsErrOf result CabinetFault.Failed) }
        ensures accounts { accounts_of self.new ≡ accounts_of self.old }
        ensures most { most_of self.new ≡ most_of self.old }
    {
        let mut there = Vec::new(alloc);
        for name in own {
            if let Err(fault) = self.add_there(alloc, &mut there, name) {
                return Err(fault);
            }
        }
        Ok(there)
    }

    // The names of the account's records that are there, in rising order of bytes.
    fn listed(&mut self, alloc: Global, account: usize) -> Result<Vec<RecordName>, CabinetFault>
        requires { account < length (accounts_of self.old) }
        ensures listed { IfOk result (λ names. (now : Image) → (B.disk (board_of self.old)).now ≡ Some now
            → NamesKnown now (memory_of self.old)
            → AreNames (account_at (accounts_of self.old) account) now names.items) }
        ensures rising { IfOk result (λ names. IsSorted (slice_cmp nat_cmp) names.items) }
        ensures looked { Looked (B.disk (board_of self.old)) (B.disk (board_of self.new)) (memory_of self.old)
            (memory_of self.new) }
        ensures cause { HasCause (B.faults (board_of self.old)) (B.faults (board_of self.new))
            (IsErrOf result CabinetFault.Failed) }
        ensures accounts { accounts_of self.new ≡ accounts_of self.old }
        ensures most { most_of self.new ≡ most_of self.old }
    {
        let account = self.cabinet.accounts()[account].as_str();
        let Ok(own) = own_names(alloc, self.cabinet.names(), account) else {
            return Err(CabinetFault::NoMemory);
        };
        match self.those_there(alloc, &own) {
            Ok(there) => in_order(there),
            Err(fault) => Err(fault),
        }
    }

    /// The names of the account's records. There are no leaves yet.
    pub(crate) fn names(&mut self, alloc: Global, account: usize) -> Reply
        requires { account < length (accounts_of self.old) }
        ensures answers { Answers (account_at (accounts_of self.old) account) (B.disk (board_of self.old))
            (B.disk (board_of self.new)) (memory_of self.old) (memory_of self.new) Op.Names result }
        ensures replied { IsListing result }
        ensures cause { HasCause (B.faults (board_of self.old)) (B.faults (board_of self.new))
            (result ≡ Reply.Failed) }
        ensures fewer { AreFewer (names_of self.old) (names_of self.new) }
        ensures accounts { accounts_of self.new ≡ accounts_of self.old }
        ensures most { most_of self.new ≡ most_of self.old }
    {
        match self.listed(alloc, account) {
            Ok(names) => Reply::Listed(Listing::new(names, Vec::new(alloc))),
            Err(CabinetFault::Failed) => Reply::Failed,
            Err(_) => Reply::NoMemory,
        }
    }
}
