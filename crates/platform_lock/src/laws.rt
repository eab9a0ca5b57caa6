//! Laws of platforms behind a lock. A function has an empty body: its contract is the law.

ghost use Rattle.std.specs.Prelude.{◌≤◌, ◌+◌, ◌-◌, ◌^◌, ℕ, List, min};
ghost use Rattle.share_api.specs.declared.step.Step.{Step};
ghost use Rattle.platform_lock.specs.Devices.{FaultsRose, HaveFailed};

/// Where at least `n` of the steps failed, the count of faults has risen by at least `n`, up to the end of a `u64`.
pub fn failed_steps_are_counted()
    ensures { (before now n : ℕ) (chain : List Step)
        → FaultsRose before chain now
        → HaveFailed n chain
        → min (before + n) (2 ^ 64 - 1) ≤ now }
{}
