//! One device step.

ghost use Rattle.std.specs.Prelude.{◌≡◌, ◌≢◌, ◌≤◌, ◌<◌, ℕ, List, [], ◌∷◌, ◌++◌, length, OnOk, IsErr};
ghost use Rattle.fault_count.specs.Causes.{HasCause};
ghost use Rattle.board_model.specs.Disk.{Unchanged, Same};
ghost use Rattle.board_model.specs.Disk as disks;
ghost use Rattle.cabinet.specs.Edits.{Edits, Agrees, IsSettled};
ghost use Rattle.platform_core.specs.Kept as kept;
ghost use Rattle.pw_types.specs.declared.era.Era.{Era};
ghost use Rattle.share_api.specs.Contents.{Bytes, Contents};
ghost use Rattle.share_api.specs.declared.step.Op.{Op};
ghost use Rattle.share_api.specs.declared.step.Reply.{Reply};
ghost use Rattle.share_api.specs.declared.step.Step.{Step};
ghost use Rattle.image_path.specs.Showing.{ByAccount};
ghost use Rattle.platform_core.specs.Records.{account_at, AreDistinct, AllShow};
ghost use Rattle.platform_core.specs.Asked.{IsOwn, HasRoomFor, edits_of, NamesGo, has_failed, IsDone, IsReplyTo};
ghost use Rattle.platform_core.specs.Standing.{IsRight, Answers, AccountsGo};
ghost use Rattle.platform_core.specs.Standing.{RecordsStand, RecordsStandSince, ChainStands};
ghost use Rattle.platform_core.specs.Held.{board_of, accounts_of, names_of, most_of, memory_of, is_unsettled};
ghost use Rattle.platform_core.specs.declared.platform.Platform.{Platform};

use crate::platform::Platform;
use crate::records::Records;
use board_model::Board;
use fault_count::Failed;
use share_api::{Op, Reply, Step, Write};
use std::alloc::Global;

// Makes certain what a step that failed left in doubt.
fn settle<B: Board>(records: &mut Records<B>, unsettled: bool) -> Result<(), Failed>
    ensures quiet { disks.Leaves (B.disk (kept.board_of records.old)) (B.disk (kept.board_of records.new))
        Same }
    ensures goes { disks.Goes (B.disk (kept.board_of records.old)) (B.disk (kept.board_of records.new)) Same }
    ensures right { IsRight (B.disk (kept.board_of records.old)) (kept.memory_of records.old) unsettled
        → IsRight (B.disk (kept.board_of records.new)) (kept.memory_of records.new) unsettled }
    ensures settled { OnOk result (IsRight (B.disk (kept.board_of records.old)) (kept.memory_of records.old) unsettled
        → IsSettled (B.disk (kept.board_of records.new))) }
    ensures cause { HasCause (B.faults (kept.board_of records.old)) (B.faults (kept.board_of records.new))
        (IsErr result) }
    ensures names { kept.names_of records.new ≡ kept.names_of records.old }
    ensures accounts { kept.accounts_of records.new ≡ kept.accounts_of records.old }
    ensures most { kept.most_of records.new ≡ kept.most_of records.old }
{
    if unsettled {
        records.cabinet.settle()
    } else {
        Ok(())
    }
}

// A change of a record.
fn change<B: Board>(records: &mut Records<B>, write: &Write) -> Reply
    requires own { (account : Bytes) × IsOwn account (Op.Do write.now) }
    requires room { HasRoomFor (kept.names_of records.old) (kept.most_of records.old) (Op.Do write.now) }
    ensures answers { (account : Bytes) → Answers account (B.disk (kept.board_of records.old))
        (B.disk (kept.board_of records.new)) (kept.memory_of records.old)
        (kept.memory_of records.new) (Op.Do write.now) result }
    ensures replied { IsDone result }
    ensures cause { HasCause (B.faults (kept.board_of records.old)) (B.faults (kept.board_of records.new))
        (result ≡ Reply.Failed) }
    ensures names { NamesGo (Op.Do write.now) (kept.names_of records.old) (kept.names_of records.new) }
    ensures accounts { kept.accounts_of records.new ≡ kept.accounts_of records.old }
    ensures most { kept.most_of records.new ≡ kept.most_of records.old }
{
    match write {
        Write::Put(name, bytes) => records.put(name, bytes.as_slice()),
        Write::Remove(name) => records.remove(name),
        Write::RemoveLeaf(_) => unreachable!(),
    }
}

// The step's own work.
fn answer<B: Board>(records: &mut Records<B>, alloc: Global, account: usize, op: &Op) -> Reply
    requires account { account < length (kept.accounts_of records.old) }
    requires own { IsOwn (account_at (kept.accounts_of records.old) account) op.now }
    requires room { HasRoomFor (kept.names_of records.old) (kept.most_of records.old) op.now }
    ensures answers { Answers (account_at (kept.accounts_of records.old) account)
        (B.disk (kept.board_of records.old)) (B.disk (kept.board_of records.new)) (kept.memory_of records.old)
        (kept.memory_of records.new) op.now result }
    ensures replied { IsReplyTo op.now result }
    ensures cause { HasCause (B.faults (kept.board_of records.old)) (B.faults (kept.board_of records.new))
        (result ≡ Reply.Failed) }
    ensures names { NamesGo op.now (kept.names_of records.old) (kept.names_of records.new) }
    ensures accounts { kept.accounts_of records.new ≡ kept.accounts_of records.old }
    ensures most { kept.most_of records.new ≡ kept.most_of records.old }
{
    match op {
        Op::Names => records.names(alloc, account),
        Op::Get(name) => records.get(alloc, name),
        Op::Do(write) => change(records, write),
        _ => unreachable!(),
    }
}

// Settles what is due, and then does the step's own work.
fn work<B: Board>(
    records: &mut Records<B>,
    unsettled: bool,
    alloc: Global,
    account: usize,
    op: &Op,
) -> Reply
    requires account { account < length (kept.accounts_of records.old) }
    requires own { IsOwn (account_at (kept.accounts_of records.old) account) op.now }
    requires room { HasRoomFor (kept.names_of records.old) (kept.most_of records.old) op.now }
    ensures edits { Edits (B.disk (kept.board_of records.old)) (B.disk (kept.board_of records.new))
        (edits_of op.now) (result ≢ Reply.Failed) }
    ensures replied { IsReplyTo op.now result }
    ensures right { IsRight (B.disk (kept.board_of records.old)) (kept.memory_of records.old) unsettled
        → IsRight (B.disk (kept.board_of records.new)) (kept.memory_of records.new) (has_failed result) }
    ensures goes { (era : Era) (moment : ℕ)
        → AreDistinct (kept.accounts_of records.old)
        → IsRight (B.disk (kept.board_of records.old)) (kept.memory_of records.old) unsettled
        → AccountsGo era (kept.accounts_of records.old) (B.disk (kept.board_of records.old))
        (B.disk (kept.board_of records.new))
        (record { account = account; moment = moment; op = op.now; reply = result }) }
    ensures cause { HasCause (B.faults (kept.board_of records.old)) (B.faults (kept.board_of records.new))
        (result ≡ Reply.Failed) }
    ensures names { NamesGo op.now (kept.names_of records.old) (kept.names_of records.new) }
    ensures accounts { kept.accounts_of records.new ≡ kept.accounts_of records.old }
    ensures most { kept.most_of records.new ≡ kept.most_of records.old }
{
    match settle(records, unsettled) {
        Ok(()) => answer(records, alloc, account, op),
        Err(_) => Reply::Failed,
    }
}

// Whether the step failed.
fn has_failed(reply: &Reply) -> bool
    ensures { result ≡ has_failed reply.now }
{
    matches!(reply, Reply::Failed)
}

impl<B: Board> Platform<B> {
    /// Makes one device step of the account with this number, and gives it back with its reply.
    ///
    /// The step is one on records. A record that is put has at most 49,181 bytes, and its name is held or there
    /// is room for it. A step that fails may be done or not; the next one first makes certain which, with a sync.
    /// `NoMemory` comes at reads alone.
    pub fn step(&mut self, alloc: Global, account: u8, moment: u64, op: Op) -> Step
        requires account { account < length (accounts_of self.old) }
        requires own { IsOwn (account_at (accounts_of self.old) account) op }
        requires room { HasRoomFor (names_of self.old) (most_of self.old) op }
        ensures step { result ≡ record { account = account; moment = moment; op = op; reply = result.reply } }
        // At each moment each image is one of before with the step's change or without it, and after a step that
        // didn't fail with it. The words and all other files, temporary ones aside, are as in that image.
        ensures edits { Edits (B.disk (board_of self.old)) (B.disk (board_of self.new)) (edits_of op)
            (result.reply ≢ Reply.Failed) }
        ensures right { IsRight (B.disk (board_of self.old)) (memory_of self.old) (is_unsettled self.old)
            → IsRight (B.disk (board_of self.new)) (memory_of self.new) (is_unsettled self.new) }
        ensures replied { IsReplyTo op result.reply }
        // Where each image shows contents before the step, each does at each moment of it, and after it.
        ensures shown { IsRight (B.disk (board_of self.old)) (memory_of self.old) (is_unsettled self.old)
            → AllShow (accounts_of self.old) (B.disk (board_of self.old)).may_leave
            → AllShow (accounts_of self.old)
            ((B.disk (board_of self.new)).left_since (B.disk (board_of self.old)).ticks) }
        ensures shown_after { IsRight (B.disk (board_of self.old)) (memory_of self.old) (is_unsettled self.old)
            → AllShow (accounts_of self.old) (B.disk (board_of self.old)).may_leave
            → AllShow (accounts_of self.old) (B.disk (board_of self.new)).may_leave }
        // The account's contents go by what its reply says, and the other accounts' stay.
        ensures goes { (era : Era) → IsRight (B.disk (board_of self.old)) (memory_of self.old) (is_unsettled self.old)
            → AccountsGo era (accounts_of self.old) (B.disk (board_of self.old)) (B.disk (board_of self.new)) result }
        // Each image now has of each account what its steps lead to, by contents of images.
        ensures stands { (era : Era) (since : ℕ) (first : ByAccount Contents) (chain : List Step)
            → IsRight (B.disk (board_of self.old)) (memory_of self.old) (is_unsettled self.old)
            → RecordsStand era (accounts_of self.old) since first (B.disk (board_of self.old)) chain
            → RecordsStand era (accounts_of self.old) since first (B.disk (board_of self.new)) (chain ++ result ∷ []) }
        // Each image since a tick has what the first n lead to, where n is no less than those that had ended.
        ensures images { (era : Era) (since tick ended : ℕ) (first : ByAccount Contents) (chain : List Step)
            → IsRight (B.disk (board_of self.old)) (memory_of self.old) (is_unsettled self.old)
            → RecordsStand era (accounts_of self.old) since first (B.disk (board_of self.old)) chain
            → RecordsStandSince era (accounts_of self.old) since first tick ended (B.disk (board_of self.old)) chain
            → since ≤ tick
            → ended ≤ length chain
            → RecordsStandSince era (accounts_of self.old) since first tick ended (B.disk (board_of self.new))
            (chain ++ result ∷ []) }
        // All of this as a lock keeps it, since a platform that a run began with.
        ensures chain { (era : Era) (first : Platform B) (chain : List Step)
            → ChainStands era (accounts_of self.old) (B.disk (board_of first)) (memory_of first)
            (B.disk (board_of self.old)) (memory_of self.old) (is_unsettled self.old) chain
            → ChainStands era (accounts_of self.old) (B.disk (board_of first)) (memory_of first)
            (B.disk (board_of self.new)) (memory_of self.new) (is_unsettled self.new) (chain ++ result ∷ []) }
        ensures accounts { accounts_of self.new ≡ accounts_of self.old }
        // Only a put may hold one name more: its own, also where it failed.
        ensures names { NamesGo op (names_of self.old) (names_of self.new) }
        ensures most { most_of self.new ≡ most_of self.old }
        ensures cause { HasCause (B.faults (board_of self.old)) (B.faults (board_of self.new))
            (result.reply ≡ Reply.Failed) }
    {
        let reply = work(
            &mut self.records,
            self.unsettled,
            alloc,
            account as usize,
            &op,
        );
        self.unsettled = has_failed(&reply);
        Step {
            account,
            moment,
            op,
            reply,
        }
    }
}
