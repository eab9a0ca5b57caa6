//! A board in memory: its start, its calls as they are counted and stored, and what a crash leaves of it.

ghost use Rattle.std.specs.Prelude.{◌≡◌, ◌≤◌, [], ◌∷◌, OnOk, OnErr, IfOk, IsErr, length};
ghost use Rattle.std.specs.FinMap.{empty};
ghost use Rattle.fault_count.specs.Causes.{HasCause};
ghost use Rattle.mem_board.specs.Images.{changed_by, now_of};
ghost use Rattle.mem_board.specs.Coding.{image_set};
ghost use Rattle.mem_board.specs.Content.{image_of};
ghost use Rattle.mem_board.specs.FileList.{with_files};

use crate::change::{Call, Change, Outcome};
use crate::content::Content;
use crate::crash::{Crash, synced_calls};
use crate::fail::{Fail, outcome_at};
use crate::file_map::FileMap;
use ct_bytes::{Blob, NoMemory, Text};
use fault_count::{Failed, FaultCount};
use std::alloc::Global;
use std::collections::VecDeque;

/// A board that tells its content, and fails the calls that a list names.
#[derive(Drop)]
pub struct MemBoard {
    pub(crate) alloc: Global,
    /// What it began with.
    pub(crate) first: Content,
    pub(crate) content: Content,
    /// The calls that changed something, the newest first.
    pub(crate) calls: VecDeque<Call>,
    pub(crate) fails: Vec<Fail>,
    /// How many calls were made.
    pub(crate) made: u64,
    pub(crate) faults: FaultCount,
    pub(crate) starved: u64,
    ghost present: { image_of content ≡ now_of (image_of first) calls.items } by { image_set _ _ },
}

// Stores a call and does its change.
fn note(
    calls: &mut VecDeque<Call>,
    now: &mut Content,
    change: Change,
    outcome: Outcome,
) -> Result<(), NoMemory>
    ensures calls { OnOk result
        (calls.new.items ≡ record { change = change; outcome = outcome } ∷ calls.old.items) }
    ensures now { OnOk result (image_of now.new ≡ changed_by change outcome (image_of now.old)) }
    ensures err { OnErr result (calls.new.items ≡ calls.old.items) }
    ensures err_now { OnErr result (image_of now.new ≡ image_of now.old) }
{
    calls.reserve(1)?;
    now.change_by(&change, outcome)?;
    calls.push_front_reserved(Call { change, outcome });
    Ok(())
}

impl MemBoard {
    ghost use Rattle.mem_board.specs.Memory.{memory_of, faults_of, disk_at, started, HasOnly};
    ghost use Rattle.mem_board.specs.Memory.{next_outcome, Counts, Looks, Changes};
    ghost use Rattle.mem_board.specs.Crash.{disk_then, image_at};

    /// A board with these files and words, of which the calls that `fails` names fail.
    ///
    /// Calls are numbered from 1, those that change nothing too. Of several files of one name the
    /// last counts, of several entries for one number the first.
    pub fn new(
        alloc: Global,
        files: Vec<(Text, Blob)>,
        words: [u8; 256],
        fails: Vec<Fail>,
    ) -> Result<MemBoard, NoMemory>
        ensures starts { IfOk result (λ board. memory_of board
            ≡ started (record { files = with_files empty files.items; words = words }) fails.items) }
        // It tells its content, and a crash leaves just that.
        ensures settled { IfOk result (λ board. HasOnly (disk_at board)
            (record { files = with_files empty files.items; words = words })) }
        ensures no_fault { IfOk result (λ board. faults_of board ≡ 0) }
    {
        let files = FileMap::from_list(alloc, files)?;
        MemBoard::begin(alloc, Content { files, words }, fails)
    }

    // A board with this content.
    fn begin(alloc: Global, first: Content, fails: Vec<Fail>) -> Result<MemBoard, NoMemory>
        ensures starts { IfOk result (λ board.
            memory_of board ≡ started (image_of first) fails.items) }
        ensures no_fault { IfOk result (λ board. faults_of board ≡ 0) }
    {
        let content = first.copy()?;
        Ok(MemBoard {
            alloc,
            first,
            content,
            calls: VecDeque::new(alloc),
            fails,
            made: 0,
            faults: FaultCount::new(),
            starved: 0,
        })
    }

    /// How many calls have changed something.
    pub fn ticks(&self) -> u64
        ensures value { result ≡ (disk_at self.now).ticks }
    {
        self.calls.len() as u64
    }

    /// How often there was no memory to store a call. It stays at 2^64 - 1 once it is there.
    pub fn starved(&self) -> u64
        ensures value { result ≡ (memory_of self.now).starved }
    {
        self.starved
    }

    // Counts a call, and says how it is to end.
    fn count(&mut self) -> Outcome
        ensures counts { Counts (memory_of self.old) (memory_of self.new) }
        ensures value { result ≡ next_outcome (memory_of self.old) }
        ensures calls { self.new.calls.items ≡ self.old.calls.items }
        ensures starved { self.new.starved ≡ self.old.starved }
        ensures faults { faults_of self.new ≡ faults_of self.old }
        ensures content { self.new.content ≡ self.old.content }
    {
        self.made = self.made.saturating_add(1);
        outcome_at(&self.fails, self.made)
    }

    // A call that changes nothing.
    pub(crate) fn look(&mut self) -> Result<(), Failed>
        ensures looks { Looks (memory_of self.old) (memory_of self.new) (IsErr result) }
        ensures content { self.new.content ≡ self.old.content }
        ensures cause { HasCause (faults_of self.old) (faults_of self.new) (IsErr result) }
    {
        if self.count() == Outcome::Done {
            Ok(())
        } else {
            Err(self.faults.raise())
        }
    }

    // A call that changes something, or that there is no memory for.
    pub(crate) fn change(&mut self, change: Result<Change, NoMemory>) -> Result<(), Failed>
        ensures changes { (is : Change) → IfOk change (λ change. change ≡ is)
            → Changes is (memory_of self.old) (memory_of self.new) (IsErr result) }
        ensures cause { HasCause (faults_of self.old) (faults_of self.new) (IsErr result) }
    {
        let outcome = self.count();
        let noted = match change {
            Ok(change) => note(&mut self.calls, &mut self.content, change, outcome),
            Err(NoMemory) => Err(NoMemory),
        };
        match noted {
            Ok(()) => {
                if outcome == Outcome::Done {
                    Ok(())
                } else {
                    Err(self.faults.raise())
                }
            }
            Err(NoMemory) => {
                self.starved = self.starved.saturating_add(1);
                Err(self.faults.raise())
            }
        }
    }

    // The image that a crash leaves after the first `tick` calls.
    fn crash_image(&self, tick: usize, pick: u64) -> Result<Content, NoMemory>
        requires { tick ≤ length self.now.calls.items }
        ensures value { IfOk result (λ content.
            image_of content ≡ image_at (memory_of self.now) tick pick) }
    {
        let newest = self.calls.len() - tick;
        let synced = synced_calls(&self.calls, newest);
        let mut crash = Crash {
            alloc: self.alloc,
            image: self.first.copy()?,
            content: self.first.copy()?,
            pick,
        };
        for number in 0..tick {
            let call = &self.calls[self.calls.len() - 1 - number];
            crash.step(call, number < synced)?;
        }
        Ok(crash.image)
    }

    /// A board with an image that a crash at this tick may leave, and with no calls that fail.
    ///
    /// `pick` chooses among the outcomes of the calls so far: each takes a digit, the oldest the lowest.
    /// A file that was written is new, as it was, absent or cut in half. A rename, a removal and a failed
    /// store are done or not, unless the directory was synced later.
    pub fn crash_at(&self, alloc: Global, tick: u64, pick: u64) -> Result<MemBoard, NoMemory>
        requires { tick ≤ (disk_at self.now).ticks }
        ensures starts { IfOk result (λ board.
            memory_of board ≡ started (image_at (memory_of self.now) tick pick) []) }
        // A crash at that tick may leave it.
        ensures left { IfOk result (λ board.
            (disk_then (memory_of self.now) tick).may_leave (memory_of board).first) }
        ensures since { IfOk result (λ board.
            (disk_at self.now).left_since tick (memory_of board).first) }
        ensures settled { IfOk result (λ board. HasOnly (disk_at board) (memory_of board).first) }
        ensures no_fault { IfOk result (λ board. faults_of board ≡ 0) }
    {
        let content = self.crash_image(tick as usize, pick)?;
        MemBoard::begin(alloc, content, Vec::new(alloc))
    }
}
