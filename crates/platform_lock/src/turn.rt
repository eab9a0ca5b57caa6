//! One device step behind the lock.

ghost use Rattle.std.specs.Prelude.{◌≡◌, ◌<◌, ◌^◌};
ghost use Rattle.share_api.specs.declared.step.Reply.{Reply};
ghost use Rattle.platform_lock.specs.Devices.{HasAccount, owner_at};
ghost use Rattle.platform_lock.specs.Answers.{IsAsked, IsAnswerTo};
ghost use Rattle.platform_lock.specs.Seats.{IsOwnSeat, AddsStep};

use crate::answer::{Answer, Outcome};
use crate::device::Device;
use crate::shared::{Shared, SharedDevice};
use share_api::{Op, ShareFault, Step};
use std::alloc::Global;
use std::sync::Wait;
use turn_lock::{Link, Receipt, Seat};

/// What is asked in a turn, and for which account.
pub(crate) struct Asked {
    pub(crate) account: u8,
    pub(crate) moment: u64,
    pub(crate) op: Op,
}

/// Waits for the platform, makes the step, and leaves it as the account's entry.
pub(crate) fn step_in_turn<R: Wait, D: Device>(
    rt: &R,
    alloc: Global,
    lock: &Shared<D>,
    seat: Seat<SharedDevice<D>>,
    link: Link<Step>,
    asked: Asked,
) -> (Seat<SharedDevice<D>>, Receipt, Result<Answer, ShareFault>)
    requires seat { IsOwnSeat lock.now.id asked.account seat }
    requires account { HasAccount (D.seen lock.now.first.device) asked.account }
    requires moment { asked.moment < 2 ^ 40 }
    requires asked { IsAsked (owner_at (D.seen lock.now.first.device) asked.account) asked.op }
    ensures made { (reply : Reply)
        × IsAnswerTo (D.seen lock.now.first.device).lost asked.op result.2 reply
        × AddsStep seat result.0 result.1.place
        (record { account = asked.account; moment = asked.moment; op = asked.op; reply = reply }) }
{
    let Asked {
        account,
        moment,
        op,
    } = asked;
    let mut held = lock.enter(rt, seat, link);
    let shared = held.value();
    let Outcome { step, answer } = shared.device.step(alloc, account, moment, op);
    *held.entry() = step;
    let (seat, receipt) = lock.leave(held);
    (seat, receipt, answer)
}
