//! The steps that a share has made.

ghost use Rattle.std.specs.Prelude.{◌≡◌, ◌+◌, ◌≤◌, [], OnOk, OnErr, vec_len, vec_capacity};

use crate::failing::is_failed;
use ct_bytes::NoMemory;
use fault_count::FaultCount;
use share_api::Step;
use std::alloc::Global;

/// Steps with their places, and room for more.
#[derive(Drop)]
pub struct StepLog {
    pub steps: Vec<(u64, Step)>,
    pub place: u64,
    pub spare: usize,
    pub faults: FaultCount,
    ghost room: { vec_len steps + spare ≤ vec_capacity steps },
}

impl StepLog {
    ghost use Rattle.std.specs.Prelude.{◌≡◌, ◌≤◌, [], OnOk, OnErr};
    ghost use Rattle.mem_share.specs.Logs.{Logs};

    /// No steps, and no room.
    pub fn new(alloc: Global) -> StepLog
        ensures steps { result.steps.items ≡ [] }
        ensures place { result.place ≡ 0 }
        ensures spare { result.spare ≡ 0 }
        ensures faults { result.faults ≡ 0 }
    {
        StepLog {
            steps: Vec::new(alloc),
            place: 0,
            spare: 0,
            faults: FaultCount::new(),
        }
    }

    /// Makes room for so many steps.
    pub fn stock(&mut self, turns: usize) -> Result<(), NoMemory>
        ensures stocked { OnOk result (turns ≤ self.new.spare) }
        ensures more { self.old.spare ≤ self.new.spare }
        ensures kept { OnErr result (self.new.spare ≡ self.old.spare) }
        ensures steps { self.new.steps.items ≡ self.old.steps.items }
        ensures place { self.new.place ≡ self.old.place }
        ensures faults { self.new.faults ≡ self.old.faults }
    {
        if self.spare < turns {
            self.steps.reserve(turns)?;
            self.spare = turns;
        }
        Ok(())
    }

    /// Stores a step, with its place.
    pub fn add(&mut self, step: Step)
        requires { 1 ≤ self.old.spare }
        ensures { Logs self.old self.new step }
    {
        let failed = is_failed(&step.reply);
        self.steps.push_reserved((self.place, step));
        self.place = self.place.wrapping_add(1);
        self.spare -= 1;
        if failed {
            let _ = self.faults.raise();
        }
    }
}
