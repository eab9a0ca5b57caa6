//! A home of `ann` in memory, with one password.

ghost use Rattle.std.specs.Prelude.{◌≡◌, ◌≤◌, List, ℕ, None, IfOk, IfSome, IsTrue, IsSomeAnd};
ghost use Rattle.home_names.specs.Names.{is_account_name, is_factor_label};
ghost use Rattle.home_edits.specs.FirstPasswords.{TakesFirst};
ghost use Rattle.mem_share.specs.Mem.{seen_of};

use ct_bytes::Text;
use home_edits::{HomeKeys, Ivs};
use home_names::is_factor_label;
use home_recovery::recover;
use mem_share::{Fail, MemShare};
use pw_path::Label;
use share_api::Share;
use std::alloc::Global;
use std::test;
use stored_home::{Derived, StoreFault, Stored};

pub type Outcome = Result<(), test::Fail>;

/// The home's main key.
pub const MAIN: [u8; 32] = [1; 32];

/// The moment of all calls, in seconds.
pub const MOMENT: u64 = 1_000;

/// A home in memory: its share, what is loaded of it, and the byte that fills the next IV.
#[derive(Drop)]
pub struct Bench {
    pub share: MemShare,
    pub stored: Stored,
    pub next_iv: u8,
}

/// The account's name.
pub fn ann() -> &'static str
    ensures { IsTrue (is_account_name result.now) }
{
    "ann"
}

/// The text of a fault.
pub fn fault_text(alloc: Global, fault: &StoreFault) -> Result<String, test::Fail> {
    let text = match fault {
        StoreFault::Failed => format!(in alloc; "failed")?,
        StoreFault::Damaged(name) => format!(in alloc; "{} is damaged", name.as_str())?,
        StoreFault::NoMemory => format!(in alloc; "no memory")?,
        StoreFault::TreeLost { .. } => format!(in alloc; "tree lost")?,
    };
    Ok(text)
}

/// Loads what is there.
pub fn load(alloc: Global, mut share: MemShare) -> Result<Bench, test::Fail> {
    match recover(alloc, ann(), &mut share, MOMENT) {
        Ok(stored) => Ok(Bench {
            share,
            stored,
            next_iv: 0,
        }),
        Err(fault) => Err(test::Fail::new(fault_text(alloc, &fault)?.as_str())),
    }
}

/// IVs that no other edit has.
pub fn next_ivs(next: &mut u8) -> Ivs {
    let block = next.wrapping_add(1);
    *next = next.wrapping_add(2);
    Ivs {
        block: [block; 12],
        payload: [*next; 12],
    }
}

/// What is derived of a secret, with cost 4.
pub fn derived_of(byte: u8) -> Derived
    ensures { result.cost ≡ 4 }
{
    Derived {
        salt: [byte; 16],
        cost: 4,
        key: [byte; 64],
    }
}

/// A label.
pub fn label_of(alloc: Global, label: &str) -> Result<Text, test::Fail>
    ensures { IfOk result (λ text. IsTrue (is_factor_label text)) }
{
    if is_factor_label(label) {
        Ok(Text::from_str(alloc, label)?)
    } else {
        Err(test::Fail::new(label))
    }
}

/// Whether neither the share's tree nor the loaded one is lost, by a look at a leaf. Then so many steps can be made.
pub fn is_ready(alloc: Global, bench: &mut Bench, turns: usize) -> Result<bool, test::Fail>
    requires { turns ≤ 8 }
    ensures spare { IfOk result (λ ready. turns ≤ (seen_of bench.new.share).spare) }
    ensures whole { IfOk result (λ ready. IsTrue ready → (seen_of bench.new.share).lost ≡ None) }
    ensures loaded { IfOk result (λ ready. IsTrue ready → bench.new.stored.lost ≡ None) }
{
    bench.share.stock(alloc, turns + 1)?;
    let Some(first) = Label::new(0) else {
        return Err(test::Fail::new("there is no label"));
    };
    let found = bench.share.leaf(first).is_ok();
    Ok(found && bench.stored.lost.is_none())
}

// Whether a home takes a first password.
fn takes_first(stored: &Stored) -> bool
    ensures { IsTrue result → (label : List ℕ) → IsSomeAnd stored.now.stash (TakesFirst label) }
{
    match &stored.stash {
        Some(stash) => {
            let next = stash.next();
            let bare = !stash.has_payload();
            bare && next < u64::MAX && stash.count() < 32
        }
        None => false,
    }
}

// Makes a home.
fn create(alloc: Global, bench: &mut Bench) -> Outcome {
    bench.share.stock(alloc, 1)?;
    if bench.stored.stash.is_some() {
        return Err(test::Fail::new("there is a home"));
    }
    match home_edits::create(alloc, &mut bench.stored, &mut bench.share, ann()) {
        Ok(()) => Ok(()),
        Err(_) => Err(test::Fail::new("no home was made")),
    }
}

// Adds its password.
fn add_password(alloc: Global, bench: &mut Bench) -> Outcome {
    bench.share.stock(alloc, 2)?;
    let label = label_of(alloc, "main")?;
    if !takes_first(&bench.stored) {
        return Err(test::Fail::new("the home takes no first password"));
    }
    let ivs = next_ivs(&mut bench.next_iv);
    let keys = HomeKeys {
        main: MAIN,
        vault: [2; 32],
    };
    match home_edits::add_first_password(
        alloc,
        &mut bench.stored,
        &mut bench.share,
        ann(),
        &label,
        &derived_of(7),
        &keys,
        &ivs,
    ) {
        Ok(()) => Ok(()),
        Err(_) => Err(test::Fail::new("no password was added")),
    }
}

/// A home with one password, over a share whose listed calls fail. It made six calls.
pub fn home(alloc: Global, fails: &[Fail]) -> Result<Bench, test::Fail> {
    let mut bench = load(alloc, MemShare::new(alloc, 0, fails.to_vec(alloc)?)?)?;
    create(alloc, &mut bench)?;
    add_password(alloc, &mut bench)?;
    Ok(bench)
}
