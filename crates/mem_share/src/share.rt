//! The share in memory.

use crate::calls::CallList;
use crate::contents::Held;
use crate::fail::Fail;
use crate::log::StepLog;
use crate::ops;
use crate::replies::{done_reply, fits_reply, label_reply, try_reply, view_reply};
use ct_bytes::{Blob, NoMemory};
use fault_count::FaultCount;
use pw_path::{Hash, Label};
use record_names::RecordName;
use share_api::{LeafView, NewLeaf, Op, Reply, Share, ShareFault, Step, TryAnswer, Write};
use std::alloc::Global;

/// A share that keeps its records and leaves in memory, and fails the calls that a list names.
///
/// Its calls but `stock`, `place` and `spare` are numbered from 1. Such a call fails exactly where the
/// list names its number, or where there is no memory for its change; then `starved` rises. It knows no
/// account's name, and its era is boot 1 from the moment 0. Its tree is lost where it is told to be; then a
/// call on leaves changes nothing, fails where it is listed, and tells the two roots where it isn't. A leaf's
/// record has the account `m` in its name.
#[derive(Drop)]
pub struct MemShare {
    pub(crate) account: u8,
    pub(crate) held: Held,
    pub(crate) calls: CallList,
    pub(crate) log: StepLog,
    /// The host's root and the chip's, where the tree is lost.
    pub(crate) lost: Option<(Hash, Hash)>,
}

impl MemShare {
    ghost use Rattle.std.specs.Prelude.{◌≡◌, ◌+◌, ◌≤◌, ◌<◌, ◌^◌, ℕ, [], None, Some, IfOk, IsErr, IsErrOf};
    ghost use Rattle.share_api.specs.Contents.{no_contents};
    ghost use Rattle.share_api.specs.Seen.{Makes, step_of};
    ghost use Rattle.share_api.specs.Steps.{Does};
    ghost use Rattle.share_api.specs.Replies.{done_reply};
    ghost use Rattle.share_api.specs.declared.step.Op.{Op};
    ghost use Rattle.mem_share.specs.Counts.{Counts};
    ghost use Rattle.mem_share.specs.Era.{mem_era};
    ghost use Rattle.mem_share.specs.Mem.{seen_of, contents_in, calls_in, IsSameAccount};

    /// A share with nothing, of the account at this place, whose listed calls fail.
    pub fn new(alloc: Global, account: u8, fails: Vec<Fail>) -> Result<MemShare, NoMemory>
        ensures contents { IfOk result (λ share. contents_in share ≡ no_contents) }
        ensures own { IfOk result (λ share. (seen_of share).own ≡ []) }
        ensures account { IfOk result (λ share. (seen_of share).account ≡ account) }
        ensures place { IfOk result (λ share. (seen_of share).place ≡ 0) }
        ensures spare { IfOk result (λ share. (seen_of share).spare ≡ 0) }
        ensures faults { IfOk result (λ share. (seen_of share).faults ≡ 0) }
        ensures lost { IfOk result (λ share. (seen_of share).lost ≡ None) }
        ensures calls { IfOk result (λ share. calls_in share ≡ record { fails = fails; made = 0; starved = 0 }) }
    {
        Ok(MemShare {
            account,
            held: Held::new(alloc),
            calls: CallList {
                fails,
                made: 0,
                starved: FaultCount::new(),
            },
            log: StepLog::new(alloc),
            lost: None,
        })
    }

    /// The share with a lost tree: the host's tree has this root, and the chip's that one.
    pub fn with_lost_tree(self, host: Hash, chip: Hash) -> MemShare
        ensures seen { seen_of result ≡ record (seen_of self) { lost = Some (host, chip) } }
        ensures contents { contents_in result ≡ contents_in self }
        ensures calls { calls_in result ≡ calls_in self }
    {
        let MemShare {
            account,
            held,
            calls,
            log,
            lost,
        } = self;
        let _ = lost;
        MemShare {
            account,
            held,
            calls,
            log,
            lost: Some((host, chip)),
        }
    }

    // Stores a step.
    fn store(&mut self, moment: u64, op: Op, reply: Reply)
        requires { 1 ≤ (seen_of self.old).spare }
        ensures made { Makes (seen_of self.old) (seen_of self.new) (step_of (seen_of self.old) moment op reply) }
        ensures held { self.new.held ≡ self.old.held }
        ensures calls { self.new.calls ≡ self.old.calls }
        ensures account { self.new.account ≡ self.old.account }
        ensures lost { self.new.lost ≡ self.old.lost }
    {
        self.log.add(Step {
            account: self.account,
            moment,
            op,
            reply,
        });
    }

    /// How often there was no memory for a change.
    pub fn starved(&self) -> &FaultCount
        ensures value { result.now ≡ (calls_in self.now).starved }
    {
        &self.calls.starved
    }

    // Makes a change, and stores it.
    fn write(&mut self, moment: u64, write: Write) -> Result<(), ShareFault>
        requires { 1 ≤ (seen_of self.old).spare }
        ensures made { Makes (seen_of self.old) (seen_of self.new)
            (step_of (seen_of self.old) moment (Op.Do write) (done_reply result)) }
        ensures only { IsErr result → IsErrOf result ShareFault.Failed }
        ensures goes { IsSameAccount self.old self.new }
        ensures told { Does mem_era (contents_in self.old)
            (step_of (seen_of self.old) moment (Op.Do write) (done_reply result)) (contents_in self.new) }
        ensures counted { Counts (calls_in self.old) (calls_in self.new) (IsErr result) }
    {
        let answer = ops::write(&mut self.held, &mut self.calls, &write);
        self.store(moment, Op::Do(write), done_reply(&answer));
        answer
    }
}

impl Share for MemShare {
    ghost use Rattle.std.specs.Prelude.{◌≡◌, ◌≤◌, ◌^◌, ◌<◌, length, refl, OnOk, OnErr, IfErr, IsErr, IsErrOf};
    ghost use Rattle.share_api.specs.Seen.{Makes, step_of};
    ghost use Rattle.share_api.specs.Steps.{Does};
    ghost use Rattle.share_api.specs.Replies.{done_reply, found_reply, label_reply, try_reply, fits_reply, view_reply, IsNamesReply};
    ghost use Rattle.share_api.specs.Conditions.{IsOwnName, IsReadFault, IsLeafFault, IsTryFault, TellsLoss};
    ghost use Rattle.share_api.specs.declared.step.Op.{Op};
    ghost use Rattle.share_api.specs.declared.step.Write.{Write};
    ghost use Rattle.share_api.specs.declared.step.Reply.{Reply};
    ghost use Rattle.mem_share.specs.Counts.{Counts};
    ghost use Rattle.mem_share.specs.Era.{mem_era};
    ghost use Rattle.mem_share.specs.Mem.{seen_of, contents_in, calls_in, IsSameAccount, same_on};

    ghost seen = { seen_of };

    ghost goes = { IsSameAccount };

    ghost goes_nowhere = { λ share. refl };

    ghost goes_on = { λ one two three h k. same_on one two three h k };

    fn stock(&mut self, alloc: Global, turns: usize) -> Result<(), NoMemory>
        ensures stocked { OnOk result (turns ≤ (seen_of self.new).spare) }
        ensures more { (seen_of self.old).spare ≤ (seen_of self.new).spare }
        ensures kept { OnErr result (seen_of self.new ≡ seen_of self.old) }
        ensures same { seen_of self.new ≡ record (seen_of self.old) { spare = (seen_of self.new).spare } }
        ensures goes { IsSameAccount self.old self.new }
        ensures contents { contents_in self.new ≡ contents_in self.old }
        ensures calls { calls_in self.new ≡ calls_in self.old }
    {
        let _ = alloc;
        self.log.stock(turns)
    }

    fn names(&mut self, alloc: Global) -> Result<Vec<RecordName>, ShareFault>
        requires { 1 ≤ (seen_of self.old).spare }
        ensures made { (reply : Reply) × IsNamesReply result reply
            × Makes (seen_of self.old) (seen_of self.new) (step_of (seen_of self.old) 0 Op.Names reply) }
        ensures only { IfErr result IsReadFault }
        ensures goes { IsSameAccount self.old self.new }
        ensures told { (reply : Reply) × IsNamesReply result reply
            × Does mem_era (contents_in self.old) (step_of (seen_of self.old) 0 Op.Names reply) (contents_in self.new) }
        ensures counted { Counts (calls_in self.old) (calls_in self.new) (IsErrOf result ShareFault.Failed) }
    {
        let (names, reply) = ops::names(alloc, &mut self.held, &mut self.calls);
        self.store(0, Op::Names, reply);
        names
    }

    fn get(&mut self, alloc: Global, name: &RecordName) -> Result<Option<Blob>, ShareFault>
        requires spare { 1 ≤ (seen_of self.old).spare }
        requires own { IsOwnName (seen_of self.old).owner name.now }
        ensures made { Makes (seen_of self.old) (seen_of self.new)
            (step_of (seen_of self.old) 0 (Op.Get name.now) (found_reply result)) }
        ensures only { IfErr result IsReadFault }
        ensures goes { IsSameAccount self.old self.new }
        ensures told { Does mem_era (contents_in self.old)
            (step_of (seen_of self.old) 0 (Op.Get name.now) (found_reply result)) (contents_in self.new) }
        ensures counted { Counts (calls_in self.old) (calls_in self.new) (IsErrOf result ShareFault.Failed) }
    {
        let _ = alloc;
        let (found, reply) = ops::get(&mut self.held, &mut self.calls, name);
        self.store(0, Op::Get(*name), reply);
        found
    }

    fn put(&mut self, name: &RecordName, bytes: Blob) -> Result<(), ShareFault>
        requires spare { 1 ≤ (seen_of self.old).spare }
        requires own { IsOwnName (seen_of self.old).owner name.now }
        requires size { length bytes ≤ 49181 }
        ensures made { Makes (seen_of self.old) (seen_of self.new)
            (step_of (seen_of self.old) 0 (Op.Do (Write.Put name.now bytes)) (done_reply result)) }
        ensures only { IsErr result → IsErrOf result ShareFault.Failed }
        ensures goes { IsSameAccount self.old self.new }
        ensures told { Does mem_era (contents_in self.old)
            (step_of (seen_of self.old) 0 (Op.Do (Write.Put name.now bytes)) (done_reply result)) (contents_in self.new) }
        ensures counted { Counts (calls_in self.old) (calls_in self.new) (IsErr result) }
    {
        self.write(0, Write::Put(*name, bytes))
    }

    fn remove(&mut self, name: &RecordName) -> Result<(), ShareFault>
        requires spare { 1 ≤ (seen_of self.old).spare }
        requires own { IsOwnName (seen_of self.old).owner name.now }
        ensures made { Makes (seen_of self.old) (seen_of self.new)
            (step_of (seen_of self.old) 0 (Op.Do (Write.Remove name.now)) (done_reply result)) }
        ensures only { IsErr result → IsErrOf result ShareFault.Failed }
        ensures goes { IsSameAccount self.old self.new }
        ensures told { Does mem_era (contents_in self.old)
            (step_of (seen_of self.old) 0 (Op.Do (Write.Remove name.now)) (done_reply result)) (contents_in self.new) }
        ensures counted { Counts (calls_in self.old) (calls_in self.new) (IsErr result) }
    {
        self.write(0, Write::Remove(*name))
    }

    fn insert_leaf(&mut self, leaf: &NewLeaf, moment: u64) -> Result<Label, ShareFault>
        requires spare { 1 ≤ (seen_of self.old).spare }
        requires moment { moment < 2 ^ 40 }
        ensures made { Makes (seen_of self.old) (seen_of self.new)
            (step_of (seen_of self.old) moment (Op.InsertLeaf leaf.now) (label_reply result)) }
        ensures only { IfErr result IsLeafFault }
        ensures lost { TellsLoss (seen_of self.old).lost result }
        ensures goes { IsSameAccount self.old self.new }
        ensures told { Does mem_era (contents_in self.old)
            (step_of (seen_of self.old) moment (Op.InsertLeaf leaf.now) (label_reply result)) (contents_in self.new) }
        ensures counted { Counts (calls_in self.old) (calls_in self.new) (IsErrOf result ShareFault.Failed) }
    {
        let answer = ops::insert(&mut self.held, &mut self.calls, &self.lost, leaf);
        self.store(moment, Op::InsertLeaf(*leaf), label_reply(&answer));
        answer
    }

    fn try_leaf(&mut self, label: Label, les: &Hash, moment: u64) -> Result<TryAnswer, ShareFault>
        requires spare { 1 ≤ (seen_of self.old).spare }
        requires moment { moment < 2 ^ 40 }
        ensures made { Makes (seen_of self.old) (seen_of self.new)
            (step_of (seen_of self.old) moment (Op.TryLeaf label les.now) (try_reply result)) }
        ensures only { IfErr result (IsTryFault label) }
        ensures lost { TellsLoss (seen_of self.old).lost result }
        ensures goes { IsSameAccount self.old self.new }
        ensures told { Does mem_era (contents_in self.old)
            (step_of (seen_of self.old) moment (Op.TryLeaf label les.now) (try_reply result)) (contents_in self.new) }
        ensures counted { Counts (calls_in self.old) (calls_in self.new) (IsErrOf result ShareFault.Failed) }
    {
        let answer = ops::try_leaf(
            &mut self.held,
            &mut self.calls,
            &self.lost,
            label,
            les,
            moment,
        );
        self.store(moment, Op::TryLeaf(label, *les), try_reply(&answer));
        answer
    }

    fn reset_leaf(&mut self, label: Label, reset: &Hash, moment: u64) -> Result<bool, ShareFault>
        requires spare { 1 ≤ (seen_of self.old).spare }
        requires moment { moment < 2 ^ 40 }
        ensures made { Makes (seen_of self.old) (seen_of self.new)
            (step_of (seen_of self.old) moment (Op.ResetLeaf label reset.now) (fits_reply result)) }
        ensures only { IfErr result (IsTryFault label) }
        ensures lost { TellsLoss (seen_of self.old).lost result }
        ensures goes { IsSameAccount self.old self.new }
        ensures told { Does mem_era (contents_in self.old)
            (step_of (seen_of self.old) moment (Op.ResetLeaf label reset.now) (fits_reply result)) (contents_in self.new) }
        ensures counted { Counts (calls_in self.old) (calls_in self.new) (IsErrOf result ShareFault.Failed) }
    {
        let answer = ops::reset_leaf(&mut self.held, &mut self.calls, &self.lost, label, reset);
        self.store(moment, Op::ResetLeaf(label, *reset), fits_reply(&answer));
        answer
    }

    fn remove_leaf(&mut self, label: Label, moment: u64) -> Result<(), ShareFault>
        requires spare { 1 ≤ (seen_of self.old).spare }
        requires moment { moment < 2 ^ 40 }
        ensures made { Makes (seen_of self.old) (seen_of self.new)
            (step_of (seen_of self.old) moment (Op.Do (Write.RemoveLeaf label)) (done_reply result)) }
        ensures only { IfErr result IsLeafFault }
        ensures lost { TellsLoss (seen_of self.old).lost result }
        ensures goes { IsSameAccount self.old self.new }
        ensures told { Does mem_era (contents_in self.old)
            (step_of (seen_of self.old) moment (Op.Do (Write.RemoveLeaf label)) (done_reply result)) (contents_in self.new) }
        ensures counted { Counts (calls_in self.old) (calls_in self.new) (IsErrOf result ShareFault.Failed) }
    {
        let answer = ops::remove_leaf(&mut self.held, &mut self.calls, &self.lost, label);
        self.store(
            moment,
            Op::Do(Write::RemoveLeaf(label)),
            done_reply(&answer),
        );
        answer
    }

    fn leaf(&mut self, label: Label) -> Result<Option<LeafView>, ShareFault>
        requires { 1 ≤ (seen_of self.old).spare }
        ensures made { Makes (seen_of self.old) (seen_of self.new)
            (step_of (seen_of self.old) 0 (Op.LookLeaf label) (view_reply result)) }
        ensures only { IfErr result IsLeafFault }
        ensures lost { TellsLoss (seen_of self.old).lost result }
        ensures goes { IsSameAccount self.old self.new }
        ensures told { Does mem_era (contents_in self.old)
            (step_of (seen_of self.old) 0 (Op.LookLeaf label) (view_reply result)) (contents_in self.new) }
        ensures counted { Counts (calls_in self.old) (calls_in self.new) (IsErrOf result ShareFault.Failed) }
    {
        let answer = ops::look(&mut self.held, &mut self.calls, &self.lost, label);
        self.store(0, Op::LookLeaf(label), view_reply(&answer));
        answer
    }

    fn place(&self) -> u64 {
        self.log.place
    }

    fn spare(&self) -> usize {
        self.log.spare
    }
}
