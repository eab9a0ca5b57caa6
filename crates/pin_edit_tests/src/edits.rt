//! The edits of PINs, each with a key of one byte.

ghost use Rattle.std.specs.Prelude.{◌≡◌, ◌≤◌, List, ℕ, IsTrue, IsSome, IsSomeAnd};
ghost use Rattle.std.specs.FinMap.{get};
ghost use Rattle.home_edits.specs.Passwords.{TakesFactor};
ghost use Rattle.home_edits.specs.Removals.{LosesFactor};
ghost use Rattle.stored_home.specs.Loaded.{HasFactors};

use crate::bench::{
    Bench, MAIN, MOMENT, ann, derived_of, fault_text, is_ready, label_of, next_ivs,
};
use ct_bytes::Text;
use factor_files::FactorRecord;
use name_map::NameMap;
use pin_edits::NewPin;
use pw_types::Schedule;
use secret_stash::Stash;
use share_api::TryAnswer;
use std::alloc::Global;
use std::test;
use stored_home::{StoreFault, Stored};

/// An edit of a PIN, with its label and the byte that fills its salt and its key.
#[derive(Clone, Copy)]
pub enum Edit {
    Add(&'static str, u8),
    Update(&'static str, u8),
    Remove(&'static str),
    Try(&'static str, u8),
    Reset(&'static str),
}

/// The high-entropy secret of a PIN with this byte.
pub fn high_of(byte: u8) -> [u8; 32] {
    [byte.wrapping_add(100); 32]
}

/// Its reset secret.
pub fn reset_of(byte: u8) -> [u8; 32] {
    [byte.wrapping_add(200); 32]
}

// A PIN with this byte.
fn pin_of(byte: u8) -> NewPin
    ensures { result.derived.cost ≡ 4 }
{
    NewPin {
        derived: derived_of(byte),
        schedule: Schedule::usual(),
        high: high_of(byte),
        reset: reset_of(byte),
    }
}

/// Whether a home with factors takes another.
pub fn takes_factor(stored: &Stored) -> bool
    ensures { IsTrue result → (label : List ℕ) → IsSomeAnd stored.now.stash (TakesFactor label) }
{
    match &stored.stash {
        Some(stash) => {
            let next = stash.next();
            let there = stash.has_payload();
            there && next < u64::MAX && stash.count() < 32 && stash.payload_size() <= 945
        }
        None => false,
    }
}

// Whether a label has a PIN.
fn has_pin(rows: &NameMap<FactorRecord>, label: &Text) -> bool
    ensures { IsTrue result → IsSomeAnd (get rows.now label.now) (λ row. IsSome row.leaf) }
{
    match rows.get(label) {
        Some(row) => row.leaf.is_some(),
        None => false,
    }
}

// Whether a label has a block.
fn has_block(stash: &Stash, label: &Text) -> bool
    ensures { IsTrue result → IsSome (get stash.now.blocks label.now) }
{
    let Ok(mut copy) = stash.copy() else {
        return false;
    };
    copy.drop_block(label.as_str()).is_ok()
}

// Whether a home loses a factor, and keeps others.
fn loses_factor(stored: &Stored, label: &Text) -> bool
    ensures { IsTrue result → IsSomeAnd stored.now.stash (LosesFactor label.now) }
{
    match &stored.stash {
        Some(stash) => {
            let there = stash.has_payload();
            let found = has_block(stash, label);
            there && found && stash.count() >= 2 && stash.payload_size() <= 945
        }
        None => false,
    }
}

// Whether a home has factors.
fn has_factors(stored: &Stored) -> bool
    ensures { IsTrue result → HasFactors stored.now }
{
    match &stored.stash {
        Some(stash) => stash.has_payload(),
        None => false,
    }
}

type Edited = Result<Result<(), StoreFault>, test::Fail>;

fn add(alloc: Global, bench: &mut Bench, label: &str, byte: u8) -> Edited {
    let label = label_of(alloc, label)?;
    if !is_ready(alloc, bench, 3)? || !takes_factor(&bench.stored) {
        return Err(test::Fail::new("the home takes no PIN"));
    }
    if bench.stored.factors.get(&label).is_some() {
        return Err(test::Fail::new("the label has a factor"));
    }
    let ivs = next_ivs(&mut bench.next_iv);
    Ok(pin_edits::add_pin(
        alloc,
        &mut bench.stored,
        &mut bench.share,
        ann(),
        &label,
        &pin_of(byte),
        &MAIN,
        &ivs,
        MOMENT,
    ))
}

fn update(alloc: Global, bench: &mut Bench, label: &str, byte: u8) -> Edited {
    let label = label_of(alloc, label)?;
    if !is_ready(alloc, bench, 5)? || !takes_factor(&bench.stored) {
        return Err(test::Fail::new("the home takes no PIN"));
    }
    if !has_pin(&bench.stored.factors, &label) {
        return Err(test::Fail::new("the home has no such PIN"));
    }
    let ivs = next_ivs(&mut bench.next_iv);
    Ok(pin_edits::update_pin(
        alloc,
        &mut bench.stored,
        &mut bench.share,
        ann(),
        &label,
        &pin_of(byte),
        &MAIN,
        &ivs,
        MOMENT,
    ))
}

fn remove(alloc: Global, bench: &mut Bench, label: &str) -> Edited {
    let label = label_of(alloc, label)?;
    if !is_ready(alloc, bench, 3)? || !has_pin(&bench.stored.factors, &label) {
        return Err(test::Fail::new("the home has no such PIN"));
    }
    if !loses_factor(&bench.stored, &label) {
        return Err(test::Fail::new("the home keeps its last factor"));
    }
    Ok(pin_edits::remove_pin(&mut bench.stored, &mut bench.share, ann(), &label, MOMENT))
}

fn reset(alloc: Global, bench: &mut Bench, label: &str) -> Edited {
    let label = label_of(alloc, label)?;
    if !is_ready(alloc, bench, 1)? || !has_pin(&bench.stored.factors, &label) {
        return Err(test::Fail::new("the home has no such PIN"));
    }
    if !has_factors(&bench.stored) {
        return Err(test::Fail::new("the home has no factors"));
    }
    Ok(pin_edits::reset_pin(
        &bench.stored,
        &mut bench.share,
        ann(),
        &label,
        &MAIN,
        MOMENT,
    ))
}

// What a try answers. A right one must release the PIN's own secret.
fn try_text(alloc: Global, bench: &mut Bench, label: &str, byte: u8) -> Result<String, test::Fail> {
    let label = label_of(alloc, label)?;
    if !is_ready(alloc, bench, 1)? || !has_pin(&bench.stored.factors, &label) {
        return Err(test::Fail::new("the home has no such PIN"));
    }
    match pin_edits::try_pin(&bench.stored, &mut bench.share, &label, &[byte; 64], MOMENT) {
        Ok(TryAnswer::Right(high)) if high == high_of(byte) => Ok(format!(in alloc; "right")?),
        Ok(TryAnswer::Wrong) => Ok(format!(in alloc; "wrong")?),
        Ok(_) => Ok(format!(in alloc; "another answer")?),
        Err(fault) => fault_text(alloc, &fault),
    }
}

// What an edit that reads nothing answers.
fn edit_text(alloc: Global, edited: Result<(), StoreFault>) -> Result<String, test::Fail> {
    match edited {
        Ok(()) => Ok(format!(in alloc; "ok")?),
        Err(fault) => fault_text(alloc, &fault),
    }
}

/// What an edit answers, or why it can't be made. A look at a leaf is the first of its calls.
pub fn answer(alloc: Global, bench: &mut Bench, edit: Edit) -> Result<String, test::Fail> {
    let edited = match edit {
        Edit::Add(label, byte) => add(alloc, bench, label, byte)?,
        Edit::Update(label, byte) => update(alloc, bench, label, byte)?,
        Edit::Remove(label) => remove(alloc, bench, label)?,
        Edit::Reset(label) => reset(alloc, bench, label)?,
        Edit::Try(label, byte) => return try_text(alloc, bench, label, byte),
    };
    edit_text(alloc, edited)
}
