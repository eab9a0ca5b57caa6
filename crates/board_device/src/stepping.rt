//! One device step.

ghost use Rattle.std.specs.Prelude.{◌≡◌, ◌⊎◌, ◌≤◌, ◌<◌, length, Some, IsTrue, true, false};
ghost use Rattle.std.specs.List.{list_all};
ghost use Rattle.fault_count.specs.Causes.{HasCause};
ghost use Rattle.home_names.specs.Names.{is_account_name};
ghost use Rattle.platform_core.specs.Asked.{IsOwn, HasRoomFor};
ghost use Rattle.platform_core.specs.Held.{names_of, most_of};
ghost use Rattle.platform_core.specs.Records.{account_at};
ghost use Rattle.platform_core.specs.Held as held;
ghost use Rattle.platform_lock.specs.Answers.{IsAsked};
ghost use Rattle.share_api.specs.declared.step.Reply.{Reply};
ghost use Rattle.board_device.specs.Device.{platform_of, board_of, accounts_of, era_of, refused_of};
ghost use Rattle.board_device.specs.Idle.{HasRecordNames, is_on_leaf, idle_reply};
ghost use Rattle.board_device.specs.Standing.{Made};

use crate::answers::answered;
use crate::device::BoardDevice;
use crate::leafless::{is_on_leaf, leaf_answer, refuse};
use board_model::Board;
use fault_count::FaultCount;
use platform_core::Platform;
use platform_lock::{Device, Outcome};
use pw_types::Era;
use share_api::{Op, Step, Write};
use std::alloc::Global;

// The names that the step has are those of records.
fn look_at_names(op: &Op)
    ensures { HasRecordNames op.now }
{
    match op {
        Op::Names => {}
        Op::Get(name) => {
            let _text = name.as_str();
        }
        Op::Do(Write::Put(name, _)) => {
            let _text = name.as_str();
        }
        Op::Do(Write::Remove(name)) => {
            let _text = name.as_str();
        }
        Op::Do(Write::RemoveLeaf(_)) => {}
        Op::InsertLeaf(_) => {}
        Op::TryLeaf(_, _) => {}
        Op::ResetLeaf(_, _) => {}
        Op::LookLeaf(_) => {}
    }
}

impl<B: Board> BoardDevice<B> {
    /// The device of a platform whose accounts' names are in their grammar, in an era.
    pub fn new(platform: Platform<B>, era: Era) -> BoardDevice<B>
        requires { IsTrue (list_all is_account_name (held.accounts_of platform)) }
        ensures platform { platform_of result ≡ platform }
        ensures era { era_of result ≡ era }
        ensures refused { refused_of result ≡ 0 }
    {
        BoardDevice {
            platform,
            era,
            refused: FaultCount::new(),
        }
    }

    /// The platform.
    pub fn into_platform(self) -> Platform<B>
        ensures value { result ≡ platform_of self }
    {
        let BoardDevice {
            platform,
            era: _,
            refused: _refused,
        } = self;
        platform
    }

    // A step on a leaf.
    fn leaf_step(&mut self, account: u8, moment: u64, op: Op) -> Outcome
        requires account { account < length (accounts_of self.old) }
        requires leaf { is_on_leaf op ≡ true }
        ensures made { Made B.disk B.faults self.old self.new account moment op result.answer result.step }
        ensures reply { result.step.reply ≡ idle_reply op }
        ensures platform { platform_of self.new ≡ platform_of self.old }
    {
        let name = self.platform.accounts()[account as usize].as_str();
        let (answer, reply) = leaf_answer(&mut self.refused, name, &op);
        let step = Step {
            account,
            moment,
            op,
            reply,
        };
        Outcome { step, answer }
    }

    // A put for whose name there is no room.
    fn refused_step(&mut self, account: u8, moment: u64, op: Op) -> Outcome
        requires room { HasRoomFor (names_of (platform_of self.old)) (most_of (platform_of self.old)) op → ⊥ }
        ensures made { Made B.disk B.faults self.old self.new account moment op result.answer result.step }
        ensures reply { result.step.reply ≡ Reply.Failed }
        ensures platform { platform_of self.new ≡ platform_of self.old }
    {
        let (answer, reply) = refuse(&mut self.refused);
        let step = Step {
            account,
            moment,
            op,
            reply,
        };
        Outcome { step, answer }
    }

    // A step on records that the platform makes.
    fn record_step(&mut self, alloc: Global, account: u8, moment: u64, op: Op) -> Outcome
        requires account { account < length (accounts_of self.old) }
        requires own { IsOwn (account_at (accounts_of self.old) account) op }
        requires room { HasRoomFor (names_of (platform_of self.old)) (most_of (platform_of self.old)) op }
        ensures made { Made B.disk B.faults self.old self.new account moment op result.answer result.step }
        ensures cause { HasCause (B.faults (board_of self.old)) (B.faults (board_of self.new))
            (result.step.reply ≡ Reply.Failed) }
        ensures refused { refused_of self.new ≡ refused_of self.old }
    {
        let step = self.platform.step(alloc, account, moment, op);
        answered(alloc, step)
    }

    /// Makes one device step of the account with this number, and gives it back with its reply and its answer.
    ///
    /// A step on records is the platform's. A put for whose name there is no room fails, and nothing is done. The
    /// account has no leaves: one that is removed or looked at isn't there, one that is tried or reset has no record
    /// and so is damaged, and a new one fails, since there is no chip.
    pub fn make_step(&mut self, alloc: Global, account: u8, moment: u64, op: Op) -> Outcome
        requires account { account < length (accounts_of self.old) }
        requires asked { IsAsked (Some (account_at (accounts_of self.old) account)) op }
        ensures made { Made B.disk B.faults self.old self.new account moment op result.answer result.step }
        // With room a step on records fails only where the board does.
        ensures cause { is_on_leaf op ≡ false
            → HasRoomFor (names_of (platform_of self.old)) (most_of (platform_of self.old)) op
            → HasCause (B.faults (board_of self.old)) (B.faults (board_of self.new))
            (result.step.reply ≡ Reply.Failed) }
        // Any other step leaves the platform as it is.
        ensures idle { (is_on_leaf op ≡ true)
            ⊎ (HasRoomFor (names_of (platform_of self.old)) (most_of (platform_of self.old)) op → ⊥)
            → (result.step.reply ≡ idle_reply op) × (platform_of self.new ≡ platform_of self.old) }
    {
        look_at_names(&op);
        if is_on_leaf(&op) {
            self.leaf_step(account, moment, op)
        } else if self.platform.has_room(&op) {
            self.record_step(alloc, account, moment, op)
        } else {
            self.refused_step(account, moment, op)
        }
    }
}

impl<B: Board> Device for BoardDevice<B> {
    ghost use Rattle.board_device.specs.Device.{board_of, seen_by};
    ghost use Rattle.board_device.specs.Standing.{StandsTo};
    ghost use Rattle.board_device.specs.Begins.{stands_to_itself};

    ghost seen = { seen_by B.faults };

    ghost stands = { StandsTo B.disk };

    ghost begins = { λ device. stands_to_itself B.disk device (B.counts_now (board_of device))
        (B.only_now (board_of device)) };

    fn step(&mut self, alloc: Global, account: u8, moment: u64, op: Op) -> Outcome {
        self.make_step(alloc, account, moment, op)
    }
}
