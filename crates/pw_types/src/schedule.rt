//! Delay schedules: after how many wrong tries the next one waits how long.

ghost use Rattle.std.specs.Prelude.{◌≡◌, ℕ, ◌+◌, ◌<◌, ◌↔◌, [], ◌∷◌, length, IsOk, IfOk, IfErr};
ghost use Rattle.pw_types.specs.Schedule.{IsSchedule, IsFaultOf, keeps_rules, limit_of};
ghost use Rattle.pw_types.specs.Delay.{deciding};

use std::marker::Model;

/// The seconds of a pair that locks.
pub const LOCKED: u32 = 4_294_967_295;

/// A schedule has at most so many pairs.
pub const MOST_PAIRS: usize = 16;

/// A pair has at most so many attempts.
pub const MOST_ATTEMPTS: u32 = 1_000;

// The default schedule's 6 pairs, and 10 unused ones.
#[rattlefmt::skip]
const USUAL: [(u32, u32); MOST_PAIRS] = [
    (5, 30), (6, 60), (7, 300), (8, 900), (9, 3_600), (10, LOCKED), (0, 0), (0, 0),
    (0, 0), (0, 0), (0, 0), (0, 0), (0, 0), (0, 0), (0, 0), (0, 0),
];

/// Why a list of pairs is no schedule.
#[derive(Clone, Copy, Debug, PartialEq, Eq)]
pub enum ScheduleFault {
    /// The first pair that breaks a rule, counted from 1. It is 0 where there are no pairs or over 16.
    BadSchedule(usize),
}

/// A delay schedule, seen as its list of 1 to 16 pairs (attempts, seconds).
///
/// Attempts are from 1 to 1,000. Attempts and seconds rise strictly. The last pair locks, and no other
/// does: its seconds are `LOCKED`.
#[derive(Clone, Copy, Debug, PartialEq, Eq)]
pub struct Schedule {
    pairs: [(u32, u32); 16],
    count: usize,
}

impl Model for Schedule {
    ghost use Rattle.std.specs.Prelude.{◌≡◌, ℕ, ◌-◌, ◌++◌, List, length, take, drop, replicate};

    ghost Value = { List (ℕ × ℕ) };

    ghost view = { λ s. take s.count s.pairs };

    ghost use Rattle.pw_types.specs.Kept.{IsKept, kept_pairs, kept_count};

    ghost invariant = { λ s. IsKept s.pairs s.count };

    ghost inverse = { λ pairs. record { pairs = pairs ++ replicate (16 - length pairs) (0, 0); count = length pairs } };

    ghost inverse_ok = { λ s kept. λ i. record { pairs = kept_pairs s.pairs s.count kept i; count = kept_count s.pairs s.count kept i } };
}

impl Schedule {
    /// Reads a schedule.
    ///
    /// The fault is `BadSchedule` with the first pair that breaks a rule, counted from 1, or with 0 where
    /// there are no pairs or over 16. A last pair that doesn't lock is itself the bad one, and so is a
    /// pair before the last that locks.
    pub fn new(pairs: &[(u32, u32)]) -> Result<Schedule, ScheduleFault>
        ensures found { IfOk result (λ schedule. schedule ≡ pairs.now) }
        ensures succeeds { IsOk result ↔ IsSchedule pairs.now }
        ensures bad_schedule { IfErr result (IsFaultOf pairs.now) }

        // The fault that the pairs have is the one that is told.
        ensures only { (place : ℕ)
            → IsFaultOf pairs.now (ScheduleFault.BadSchedule place)
            → result ≡ Err (ScheduleFault.BadSchedule place) }
    {
        if pairs.is_empty() || pairs.len() > MOST_PAIRS {
            return Err(ScheduleFault::BadSchedule(0));
        }
        for index in 0..pairs.len() {
            if !keeps_rules(pairs, index) {
                return Err(ScheduleFault::BadSchedule(index + 1));
            }
        }
        let mut kept = [(0, 0); MOST_PAIRS];
        kept[..pairs.len()].copy_from_slice(pairs);
        Ok(Schedule {
            pairs: kept,
            count: pairs.len(),
        })
    }

    /// The schedule of a PIN that is given none.
    pub fn usual() -> Schedule
        ensures value { result ≡ (5, 30) ∷ (6, 60) ∷ (7, 300) ∷ (8, 900) ∷ (9, 3600) ∷ (10, 4294967295) ∷ [] }
        ensures rules { IsSchedule result }
    {
        Schedule {
            pairs: USUAL,
            count: 6,
        }
    }

    /// The pairs (attempts, seconds).
    pub fn pairs(&self) -> &[(u32, u32)]
        ensures value { result.now ≡ self.now }
        ensures rules { IsSchedule self.now }
    {
        &self.pairs[..self.count]
    }

    /// The attempts of the last pair. So many wrong tries lock.
    pub fn limit(&self) -> u32
        ensures { result ≡ limit_of self.now }
    {
        self.pairs[self.count - 1].0
    }

    /// The last pair whose attempts are at most `wrong`.
    pub fn deciding(&self, wrong: u32) -> Option<(u32, u32)>
        ensures { result ≡ deciding self.now wrong }
    {
        let mut deciding = None;
        for pair in self.pairs() {
            if pair.0 <= wrong {
                deciding = Some(*pair);
            }
        }
        deciding
    }
}

// Whether the pair at `index` keeps the rules of a schedule.
fn keeps_rules(pairs: &[(u32, u32)], index: usize) -> bool
    requires { index < length pairs.now }
    ensures { result ≡ keeps_rules pairs.now index }
{
    let (attempts, seconds) = pairs[index];
    let rises = index == 0 || (pairs[index - 1].0 < attempts && pairs[index - 1].1 < seconds);
    let locks = if index + 1 == pairs.len() {
        seconds == LOCKED
    } else {
        seconds != LOCKED
    };
    1 <= attempts && attempts <= MOST_ATTEMPTS && rises && locks
}
