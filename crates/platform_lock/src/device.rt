//! What the lock needs of a platform.

ghost use Rattle.std.specs.Prelude.{◌≡◌, ◌<◌, ◌^◌, List, [], ◌∷◌, ◌++◌};
ghost use Rattle.fault_count.specs.Causes.{HasCause};
ghost use Rattle.share_api.specs.declared.step.Reply.{Reply};
ghost use Rattle.share_api.specs.declared.step.Step.{Step};
ghost use Rattle.platform_lock.specs.Devices.{DeviceSeen, HasAccount, IsSameDevice, owner_at};
ghost use Rattle.platform_lock.specs.Answers.{IsAsked, IsAnswerTo};

use crate::answer::Outcome;
use share_api::Op;
use std::alloc::Global;

/// A platform of several accounts, device step by device step.
///
/// Accounts have numbers from 0. Moments are in seconds.
pub trait Device {
    /// What a contract sees of it beside its steps.
    ghost seen: { Self → DeviceSeen };

    /// What it is to the one that a run began with, and to the steps since, in their order.
    ghost stands: { Self → Self → List Step → Type 0 };

    /// Makes one device step of an account, and gives it back with its reply and its answer.
    ///
    /// Steps on names and records that are read alone need memory.
    fn step(&mut self, alloc: Global, account: u8, moment: u64, op: Op) -> Outcome
        requires account { HasAccount (seen self.old) account }
        requires moment { moment < 2 ^ 40 }
        requires asked { IsAsked (owner_at (seen self.old) account) op }
        ensures step { result.step
            ≡ record { account = account; moment = moment; op = op; reply = result.step.reply } }
        ensures answer { IsAnswerTo (seen self.old).lost op result.answer result.step.reply }
        ensures stands { (first : Self) (chain : List Step)
            → stands first self.old chain
            → stands first self.new (chain ++ result.step ∷ []) }
        ensures same { IsSameDevice (seen self.old) (seen self.new) }
        ensures cause { HasCause (seen self.old).faults (seen self.new).faults
            (result.step.reply ≡ Reply.Failed) };

    /// A platform stands to itself, with no steps.
    ghost begins: { (device : Self) → stands device device [] };
}
