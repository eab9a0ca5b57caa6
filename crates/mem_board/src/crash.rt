//! What a crash leaves of a board in memory.

ghost use Rattle.std.specs.Prelude.{◌≡◌, ◌-◌, ◌/◌, ◌%◌, ◌<◌, ◌≤◌, [], OnOk, IfOk, length, drop};
ghost use Rattle.std.specs.Prelude.{nat_lt};
ghost use Rattle.mem_board.specs.Images.{changed_by, now_of, mended};
ghost use Rattle.mem_board.specs.Content.{image_of};
ghost use Rattle.mem_board.specs.Crash.{is_certain, choices, written_as, chosen, is_dir_sync};
ghost use Rattle.mem_board.specs.Crash.{synced_to, next_choice, disk_then, image_at};
ghost use Rattle.mem_board.specs.CrashState.{choice_of};
ghost use Rattle.mem_board.specs.Memory.{memory_of, faults_of, disk_at, started, HasOnly};

use crate::change::{Call, Change, Outcome};
use crate::content::Content;
use ct_bytes::{Blob, NoMemory, Text};
use std::alloc::Global;
use std::collections::VecDeque;

impl Call {
    // The change is in each image as it is now, if it isn't a write.
    fn is_certain(&self, synced: bool) -> bool
        ensures value { result ≡ is_certain synced self.now.change self.now.outcome }
    {
        match (&self.change, self.outcome) {
            (Change::Store(_), Outcome::Done) => true,
            _ => synced,
        }
    }

    // How many outcomes the call has among the images.
    fn choices(&self, synced: bool) -> u64
        ensures value { result ≡ choices synced self.now.change self.now.outcome }
        ensures some { 0 < result }
    {
        match &self.change {
            Change::Write(_, _) => 4,
            Change::SyncTemp(_) => 1,
            Change::SyncDir => 1,
            _ => { if self.is_certain(synced) { 1 } else { 2 } }
        }
    }

    fn is_dir_sync(&self) -> bool
        ensures value { result ≡ is_dir_sync self.now.change self.now.outcome }
    {
        matches!(self.change, Change::SyncDir) && self.outcome == Outcome::Done
    }
}

// Leaves a written file new, as it was, absent or cut in half.
fn write_as(
    alloc: Global,
    image: &mut Content,
    digit: u64,
    name: &Text,
    bytes: &Blob,
) -> Result<(), NoMemory>
    ensures ok { OnOk result
        (image_of image.new ≡ written_as digit name.now bytes.now (image_of image.old)) }
{
    if digit == 0 {
        image.files.insert(name.copy()?, bytes.copy()?)
    } else if digit == 1 {
        Ok(())
    } else if digit == 2 {
        image.files.remove(name);
        Ok(())
    } else {
        let bytes = bytes.as_slice();
        let half = Blob::from_slice(alloc, &bytes[..bytes.len() / 2])?;
        image.files.insert(name.copy()?, half)
    }
}

// Leaves a synced file as it is now.
fn mend(image: &mut Content, now: &Content, name: &Text) -> Result<(), NoMemory>
    ensures ok { OnOk result
        (image_of image.new ≡ mended name.now (image_of now.now) (image_of image.old)) }
{
    match now.files.get(name) {
        Some(bytes) => image.files.insert(name.copy()?, bytes.copy()?),
        None => {
            image.files.remove(name);
            Ok(())
        }
    }
}

// Leaves a call in an image by a digit below its choices.
fn leave(
    alloc: Global,
    image: &mut Content,
    now: &Content,
    call: &Call,
    synced: bool,
    digit: u64,
) -> Result<(), NoMemory>
    ensures ok { OnOk result (image_of image.new
        ≡ chosen synced call.now.change call.now.outcome (image_of now.now) digit
        (image_of image.old)) }
{
    match &call.change {
        Change::Write(name, bytes) => write_as(alloc, image, digit, name, bytes),
        Change::SyncTemp(name) => {
            if call.outcome == Outcome::Done && (synced || image.files.get(name).is_some()) {
                mend(image, now, name)
            } else {
                Ok(())
            }
        }
        Change::SyncDir => Ok(()),
        change => {
            if call.is_certain(synced) {
                image.change_by(change, call.outcome)
            } else if digit == 0 {
                image.change(change)
            } else {
                Ok(())
            }
        }
    }
}

// How many calls there were up to the last sync of the directory, of those from `newest` on.
pub fn synced_calls(calls: &VecDeque<Call>, newest: usize) -> usize
    requires { newest ≤ length calls.now.items }
    ensures value { result ≡ synced_to (drop newest calls.now.items) }
{
    for at in newest..calls.len() {
        if calls[at].is_dir_sync() {
            return calls.len() - at;
        }
    }
    0
}

/// An image in the making: what a crash leaves by the calls so far, what is there after them, and the
/// digits that are left to choose by.
#[derive(Drop)]
pub struct Crash {
    pub alloc: Global,
    pub image: Content,
    pub content: Content,
    pub pick: u64,
}

impl Crash {
    // One call more.
    pub fn step(&mut self, call: &Call, synced: bool) -> Result<(), NoMemory>
        ensures choice { OnOk result (choice_of self.new
            ≡ next_choice synced call.now (image_of self.old.content) (choice_of self.old)) }
        ensures content { OnOk result (image_of self.new.content
            ≡ changed_by call.now.change call.now.outcome (image_of self.old.content)) }
    {
        let choices = call.choices(synced);
        let digit = self.pick % choices;
        self.pick /= choices;
        leave(
            self.alloc,
            &mut self.image,
            &self.content,
            call,
            synced,
            digit,
        )?;
        self.content.change_by(&call.change, call.outcome)
    }
}
