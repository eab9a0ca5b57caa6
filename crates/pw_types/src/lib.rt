//! Moments, stamps, delay schedules, and the rule by which a try for a credential waits.
#![tactic(auto)]

mod delay;
mod era;
mod laws;
mod moment;
mod schedule;
mod stamp;

pub use delay::{Readiness, ready};
pub use era::Era;
pub use laws::{
    deciding_pair, limit_locks, locked_stays_locked, more_tries_wait_longer,
    wait_ends_at_its_moment,
};
pub use moment::{LAST_MOMENT, cut_moment};
pub use schedule::{LOCKED, MOST_ATTEMPTS, MOST_PAIRS, Schedule, ScheduleFault};
pub use stamp::Stamp;
