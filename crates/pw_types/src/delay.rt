//! The delay rule.

ghost use Rattle.std.specs.Prelude.{◌≡◌, ◌<◌, ◌^◌};
ghost use Rattle.pw_types.specs.Delay.{readiness};

use crate::schedule::{LOCKED, Schedule};
use crate::stamp::Stamp;

/// Whether a try may come.
#[derive(Clone, Copy, Debug, PartialEq, Eq)]
pub enum Readiness {
    /// It may come now.
    Ready,
    /// It may come from this moment on.
    Delayed(u64),
    /// It may not come until the count of wrong tries is set back.
    Locked,
}

/// Whether a try may come at `now`, after `wrong` wrong tries of which the last was at `last`.
///
/// The last pair of the schedule whose attempts are at most `wrong` decides. Where there is none the try
/// is ready, and where its seconds are `LOCKED` it is locked. Else it waits for the pair's seconds,
/// counted from the last wrong try where that was in the present boot, and from `start`, the moment at
/// which the present boot began, otherwise. Moments are in seconds.
#[tactic(auto, unfolding(crate::specs::Delay::readiness))]
pub fn ready(schedule: &Schedule, wrong: u32, last: Stamp, now: Stamp, start: u64) -> Readiness
    requires last { last.at < 2 ^ 40 }
    requires start { start < 2 ^ 40 }
    ensures { result ≡ readiness schedule.now wrong last now start }
{
    let Some((_, seconds)) = schedule.deciding(wrong) else {
        return Readiness::Ready;
    };
    if seconds == LOCKED {
        return Readiness::Locked;
    }
    let from = if last.boot == now.boot {
        last.at
    } else {
        start
    };
    let until = from + u64::from(seconds);
    if now.at < until {
        Readiness::Delayed(until)
    } else {
        Readiness::Ready
    }
}
