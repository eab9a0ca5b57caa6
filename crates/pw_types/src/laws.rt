//! Laws of the delay rule. Each function has an empty body: its contract is the law.

ghost use Rattle.std.specs.Prelude.{◌≡◌, ℕ, ◌≤◌, ◌↔◌, List, MatchOption};
ghost use Rattle.pw_types.specs.Schedule.{IsSchedule, limit_of, pair_at};
ghost use Rattle.pw_types.specs.Delay.{readiness, deciding, waiting_until, IsLastReached, NoneReached, NoSooner};
ghost use Rattle.pw_types.specs.declared.stamp.Stamp.{Stamp};
ghost use Rattle.pw_types.specs.declared.delay.Readiness.TheVariants.{Delayed, Locked};

/// The deciding pair is the last one that the count of wrong tries has reached.
pub fn deciding_pair()
    ensures { (pairs : List (ℕ × ℕ)) (wrong : ℕ)
        → MatchOption (deciding pairs wrong)
        (NoneReached pairs wrong)
        (λ pair. (k : ℕ) × ((pair ≡ pair_at pairs k) × IsLastReached pairs wrong k)) }
{}

/// More wrong tries never shorten the wait.
pub fn more_tries_wait_longer()
    ensures { (schedule : List (ℕ × ℕ)) (wrong more : ℕ) (last now : Stamp) (start : ℕ)
        → IsSchedule schedule
        → wrong ≤ more
        → NoSooner (readiness schedule wrong last now start) (readiness schedule more last now start) }
{}

/// A schedule locks exactly where the wrong tries have reached the attempts of its last pair. So it stays
/// locked, whatever the moment and the boot.
pub fn limit_locks()
    ensures { (schedule : List (ℕ × ℕ)) (wrong : ℕ) (last now : Stamp) (start : ℕ)
        → IsSchedule schedule
        → (readiness schedule wrong last now start ≡ Locked) ↔ (limit_of schedule ≤ wrong) }
{}

/// A schedule that locks stays locked: no later count of wrong tries, moment or boot unlocks it.
pub fn locked_stays_locked()
    ensures { (schedule : List (ℕ × ℕ)) (wrong more : ℕ) (last now later_last later : Stamp) (start later_start : ℕ)
        → IsSchedule schedule
        → wrong ≤ more
        → readiness schedule wrong last now start ≡ Locked
        → readiness schedule more later_last later later_start ≡ Locked }
{}

/// A try that waits until a moment waits at each moment of the same boot before it, and is ready from it on.
pub fn wait_ends_at_its_moment()
    ensures { (schedule : List (ℕ × ℕ)) (wrong : ℕ) (last now later : Stamp) (start until : ℕ)
        → readiness schedule wrong last now start ≡ Delayed until
        → later.boot ≡ now.boot
        → readiness schedule wrong last later start ≡ waiting_until until later }
{}
