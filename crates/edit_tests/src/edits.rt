//! The edits of the home of `ann`, each with a key of one byte.

ghost use Rattle.std.specs.Prelude.{◌≡◌, ◌≤◌, ℕ, List, IsTrue, IfOk, IsSomeAnd, IsSome};
ghost use Rattle.std.specs.FinMap.{get};
ghost use Rattle.home_names.specs.Names.{is_factor_label};
ghost use Rattle.home_edits.specs.FirstPasswords.{TakesFirst};
ghost use Rattle.home_edits.specs.Passwords.{TakesFactor};
ghost use Rattle.home_edits.specs.Removals.{LosesFactor};
ghost use Rattle.home_edits.specs.Reseals.{TakesReseal};
ghost use Rattle.stored_home.specs.Loaded.{HasFactors};

use crate::records::{Outcome, ann, share_of};
use ct_bytes::Text;
use factor_files::FactorRecord;
use home_edits::{HomeKeys, Ivs};
use home_names::is_factor_label;
use home_recovery::recover;
use mem_share::{Fail, MemShare};
use name_map::NameMap;
use secret_stash::Stash;
use share_api::Share;
use std::alloc::Global;
use std::test;
use stored_home::{Derived, StoreFault, Stored};

/// The home's main key.
pub const MAIN: [u8; 32] = [1; 32];

/// The home's vault key.
pub const VAULT: [u8; 32] = [2; 32];

/// An edit: of a password with its label and the byte that fills its salt and its key, or of a vault file with its
/// name and its text.
#[derive(Clone, Copy)]
pub enum Edit<'a> {
    Create,
    AddFirst(&'a str, u8),
    Add(&'a str, u8),
    Update(&'a str, u8),
    Remove(&'a str),
    Reseal(&'a str, u8),
    PutFile(&'a str, &'a str),
}

/// A home in memory: its share, what is loaded of it, and the byte that fills the next IV.
#[derive(Drop)]
pub struct Bench {
    pub share: MemShare,
    pub stored: Stored,
    pub next_iv: u8,
}

impl Bench {
    /// Loads what is there.
    pub fn over(alloc: Global, mut share: MemShare) -> Result<Bench, test::Fail> {
        match recover(alloc, ann(), &mut share, 0) {
            Ok(stored) => Ok(Bench {
                share,
                stored,
                next_iv: 0,
            }),
            Err(fault) => Err(test::Fail::new(fault_text(alloc, &fault)?.as_str())),
        }
    }

    /// A share without a home.
    pub fn new(alloc: Global) -> Result<Bench, test::Fail> {
        Bench::over(alloc, share_of(alloc, &[])?)
    }
}

// An IV that no other edit has.
fn next_iv(next: &mut u8) -> [u8; 12] {
    *next = next.wrapping_add(1);
    [*next; 12]
}

/// The text of a fault.
pub fn fault_text(alloc: Global, fault: &StoreFault) -> Result<String, test::Fail> {
    let text = match fault {
        StoreFault::Failed => format!(in alloc; "failed")?,
        StoreFault::Damaged(name) => format!(in alloc; "{} is damaged", name.as_str())?,
        StoreFault::NoMemory => format!(in alloc; "no memory")?,
        StoreFault::TreeLost { .. } => format!(in alloc; "tree lost")?,
    };
    Ok(text)
}

// What is derived of a secret, with the least cost.
fn derived_of(byte: u8) -> Derived
    ensures { result.cost ≡ 1 }
{
    Derived {
        salt: [byte; 16],
        cost: 1,
        key: [byte; 64],
    }
}

// A label.
fn label_of(alloc: Global, label: &str) -> Result<Text, test::Fail>
    ensures { IfOk result (λ text. IsTrue (is_factor_label text)) }
{
    if is_factor_label(label) {
        Ok(Text::from_str(alloc, label)?)
    } else {
        Err(test::Fail::new(label))
    }
}

// Whether a home takes a first password.
fn takes_first(stored: &Stored) -> bool
    ensures { IsTrue result → (label : List ℕ) → IsSomeAnd stored.now.stash (TakesFirst label) }
{
    match &stored.stash {
        Some(stash) => {
            let next = stash.next();
            let bare = !stash.has_payload();
            bare && next < u64::MAX && stash.count() < 32
        }
        None => false,
    }
}

/// Whether a home with factors takes a password.
pub fn takes_factor(stored: &Stored) -> bool
    ensures { IsTrue result → (label : List ℕ) → IsSomeAnd stored.now.stash (TakesFactor label) }
{
    match &stored.stash {
        Some(stash) => {
            let next = stash.next();
            let there = stash.has_payload();
            there && next < u64::MAX && stash.count() < 32 && stash.payload_size() <= 945
        }
        None => false,
    }
}

// Whether a label has a password.
fn has_password(rows: &NameMap<FactorRecord>, label: &Text) -> bool
    ensures { IsTrue result → IsSomeAnd (get rows.now label.now) (λ row. row.leaf ≡ None) }
{
    match rows.get(label) {
        Some(row) => row.leaf.is_none(),
        None => false,
    }
}

// Whether a label has a block.
fn has_block(stash: &Stash, label: &Text) -> bool
    ensures { IsTrue result → IsSome (get stash.now.blocks label.now) }
{
    let Ok(mut copy) = stash.copy() else {
        return false;
    };
    copy.drop_block(label.as_str()).is_ok()
}

// Whether a home loses a factor, and keeps others.
fn loses_factor(stored: &Stored, label: &Text) -> bool
    ensures { IsTrue result → IsSomeAnd stored.now.stash (LosesFactor label.now) }
{
    match &stored.stash {
        Some(stash) => {
            let there = stash.has_payload();
            let found = has_block(stash, label);
            there && found && stash.count() >= 2 && stash.payload_size() <= 945
        }
        None => false,
    }
}

// Whether the stash takes a new block for a password's record.
fn takes_reseal(stash: &Stash, row: &FactorRecord) -> bool
    ensures { IsTrue result → (label : List ℕ) → TakesReseal label row.now stash.now }
{
    let there = stash.has_payload();
    let password = row.leaf.is_none();
    let below = row.edition >= 1 && row.edition < stash.next();
    there && password && below && stash.count() < 32 && stash.payload_size() <= 945
}

// Whether a label's password takes a new block.
fn has_resealable(stored: &Stored, label: &Text) -> bool
    ensures { IsTrue result → IsSomeAnd (get stored.now.factors label.now)
        (λ row. IsSomeAnd stored.now.stash (TakesReseal label.now row)) }
{
    match (&stored.stash, stored.factors.get(label)) {
        (Some(stash), Some(row)) => takes_reseal(stash, row),
        _ => false,
    }
}

// Whether a home has factors.
fn has_factors(stored: &Stored) -> bool
    ensures { IsTrue result → HasFactors stored.now }
{
    match &stored.stash {
        Some(stash) => stash.has_payload(),
        None => false,
    }
}

type Edited = Result<Result<(), StoreFault>, test::Fail>;

fn create(alloc: Global, bench: &mut Bench) -> Edited {
    bench.share.stock(alloc, 1)?;
    if bench.stored.stash.is_some() {
        return Err(test::Fail::new("there is a home"));
    }
    Ok(home_edits::create(alloc, &mut bench.stored, &mut bench.share, ann()))
}

fn add_first(alloc: Global, bench: &mut Bench, label: &str, byte: u8) -> Edited {
    bench.share.stock(alloc, 2)?;
    let label = label_of(alloc, label)?;
    if !takes_first(&bench.stored) {
        return Err(test::Fail::new("the home takes no first password"));
    }
    let ivs = Ivs {
        block: next_iv(&mut bench.next_iv),
        payload: next_iv(&mut bench.next_iv),
    };
    Ok(home_edits::add_first_password(
        alloc,
        &mut bench.stored,
        &mut bench.share,
        ann(),
        &label,
        &derived_of(byte),
        &HomeKeys {
            main: MAIN,
            vault: VAULT,
        },
        &ivs,
    ))
}

fn add(alloc: Global, bench: &mut Bench, label: &str, byte: u8) -> Edited {
    bench.share.stock(alloc, 2)?;
    let label = label_of(alloc, label)?;
    if !takes_factor(&bench.stored) || bench.stored.factors.get(&label).is_some() {
        return Err(test::Fail::new("the home takes no such password"));
    }
    let iv = next_iv(&mut bench.next_iv);
    Ok(home_edits::add_password(
        alloc,
        &mut bench.stored,
        &mut bench.share,
        ann(),
        &label,
        &derived_of(byte),
        &MAIN,
        iv,
    ))
}

fn update(alloc: Global, bench: &mut Bench, label: &str, byte: u8) -> Edited {
    bench.share.stock(alloc, 3)?;
    let label = label_of(alloc, label)?;
    if !takes_factor(&bench.stored) || !has_password(&bench.stored.factors, &label) {
        return Err(test::Fail::new("the home has no such password"));
    }
    let iv = next_iv(&mut bench.next_iv);
    Ok(home_edits::update_password(
        alloc,
        &mut bench.stored,
        &mut bench.share,
        ann(),
        &label,
        &derived_of(byte),
        &MAIN,
        iv,
    ))
}

fn remove(alloc: Global, bench: &mut Bench, label: &str) -> Edited {
    bench.share.stock(alloc, 2)?;
    let label = label_of(alloc, label)?;
    if !loses_factor(&bench.stored, &label) || !has_password(&bench.stored.factors, &label) {
        return Err(test::Fail::new("the home has no such password"));
    }
    Ok(home_edits::remove_password(&mut bench.stored, &mut bench.share, ann(), &label))
}

/// Seals the block of a label anew, under this key.
pub fn reseal(
    alloc: Global,
    bench: &mut Bench,
    label: &str,
    key: &[u8; 64],
    main: &[u8; 32],
) -> Edited {
    bench.share.stock(alloc, 1)?;
    let label = label_of(alloc, label)?;
    if !has_resealable(&bench.stored, &label) {
        return Err(test::Fail::new("the home has no such password"));
    }
    let iv = next_iv(&mut bench.next_iv);
    Ok(home_edits::reseal_password(
        &mut bench.stored,
        &mut bench.share,
        ann(),
        &label,
        key,
        main,
        iv,
    ))
}

/// Puts a vault file with these bytes.
pub fn put_bytes(alloc: Global, bench: &mut Bench, name: &str, bytes: &[u8]) -> Edited {
    bench.share.stock(alloc, 1)?;
    if name.is_empty() || name.len() > 64 || bytes.len() > 49_152 {
        return Err(test::Fail::new("the home takes no such file"));
    }
    if !has_factors(&bench.stored) {
        return Err(test::Fail::new("the home has no vault"));
    }
    let iv = next_iv(&mut bench.next_iv);
    let name = Text::from_str(alloc, name)?;
    let put = home_edits::seal_file_put(
        alloc,
        &bench.stored.files,
        ann(),
        &name,
        &VAULT,
        iv,
        bytes,
    )?;
    Ok(home_edits::put_file(&mut bench.stored, &mut bench.share, ann(), put))
}

/// What an edit answers, or why it can't be made.
pub fn answer(alloc: Global, bench: &mut Bench, edit: Edit<'_>) -> Result<String, test::Fail> {
    let edited = match edit {
        Edit::Create => create(alloc, bench),
        Edit::AddFirst(label, byte) => add_first(alloc, bench, label, byte),
        Edit::Add(label, byte) => add(alloc, bench, label, byte),
        Edit::Update(label, byte) => update(alloc, bench, label, byte),
        Edit::Remove(label) => remove(alloc, bench, label),
        Edit::Reseal(label, byte) => reseal(alloc, bench, label, &[byte; 64], &MAIN),
        Edit::PutFile(name, text) => put_bytes(alloc, bench, name, text.as_bytes()),
    };
    match edited? {
        Ok(()) => Ok(format!(in alloc; "ok")?),
        Err(fault) => fault_text(alloc, &fault),
    }
}

/// Makes an edit, which must be done.
pub fn make(alloc: Global, bench: &mut Bench, edit: Edit<'_>) -> Outcome {
    let text = answer(alloc, bench, edit)?;
    if text.as_str() != "ok" {
        return Err(test::Fail::new(text.as_str()));
    }
    Ok(())
}

/// What a vault file has, read by an edit of its own.
pub fn file_text(alloc: Global, share: &mut MemShare, name: &str) -> Result<String, test::Fail> {
    share.stock(alloc, 1)?;
    if name.is_empty() || name.len() > 64 {
        return Err(test::Fail::new("there is no such file"));
    }
    match home_edits::get_file(alloc, share, ann(), name, &VAULT) {
        Ok(bytes) => Ok(format!(in alloc; "{}", str::from_utf8(bytes.as_slice())?)?),
        Err(fault) => fault_text(alloc, &fault),
    }
}

// Makes edits one after another, each of which must be done.
fn make_each(alloc: Global, bench: &mut Bench, edits: &[Edit<'_>]) -> Outcome {
    for edit in edits {
        make(alloc, bench, *edit)?;
    }
    Ok(())
}

/// Makes edits over a share whose listed calls fail.
pub fn home_after(alloc: Global, edits: &[Edit<'_>], fails: &[Fail]) -> Result<Bench, test::Fail> {
    let mut bench = Bench::over(alloc, share_of(alloc, fails)?)?;
    make_each(alloc, &mut bench, edits)?;
    Ok(bench)
}
