//! Calls of a share in memory, and their answers as text.

ghost use Rattle.std.specs.Prelude.{◌≤◌, None, IfSome};
ghost use Rattle.share_api.specs.Conditions.{IsOwnName};
ghost use Rattle.mem_share.specs.Mem.{seen_of};

use ct_bytes::Blob;
use home_names::is_account_name;
use mem_share::{Fail, MemShare};
use pw_path::Label;
use pw_types::Schedule;
use share_api::{NewLeaf, RecordName, Share, ShareFault, TryAnswer};
use std::alloc::Global;
use std::test;

pub type Outcome = Result<(), test::Fail>;

/// A call: on all names, on the record `ann.stash`, or on the leaf at label 0. The secrets of a leaf have one
/// byte 32 times.
#[derive(Clone, Copy)]
pub enum Call {
    Names,
    Get,
    Put(&'static str),
    Remove,
    Insert,
    Try(u8),
    Reset(u8),
    RemoveLeaf,
    Look,
}

/// The low-entropy secret of a new leaf, its high-entropy secret, and its reset secret.
pub const LES: u8 = 1;

const HES: u8 = 2;

pub const RESET: u8 = 3;

/// The moment of each call.
const MOMENT: u64 = 1_000;

/// A share with nothing, whose listed calls fail.
pub fn share_of(alloc: Global, fails: &[Fail]) -> Result<MemShare, test::Fail> {
    Ok(MemShare::new(alloc, 0, fails.to_vec(alloc)?)?)
}

fn fault_text(fault: &ShareFault) -> &'static str {
    match fault {
        ShareFault::Failed => "failed",
        ShareFault::TreeLost { host, chip } => {
            if *host == [7; 32] && *chip == [8; 32] {
                "lost"
            } else {
                "lost with other roots"
            }
        }
        ShareFault::Damaged(_) => "damaged",
        ShareFault::NoMemory => "no memory",
    }
}

fn done_text(answer: &Result<(), ShareFault>) -> &'static str {
    match answer {
        Ok(()) => "done",
        Err(fault) => fault_text(fault),
    }
}

fn try_text(answer: &Result<TryAnswer, ShareFault>) -> &'static str {
    match answer {
        Ok(TryAnswer::Right(hes)) => {
            if *hes == [HES; 32] {
                "right"
            } else {
                "right with another secret"
            }
        }
        Ok(TryAnswer::Wrong) => "wrong",
        Ok(TryAnswer::Delayed(_)) => "delayed",
        Ok(TryAnswer::Locked) => "locked",
        Err(fault) => fault_text(fault),
    }
}

// The name of an account's stash.
fn stash_of(account: &str) -> Option<RecordName>
    ensures { IfSome result (λ name. IsOwnName None name) }
{
    if is_account_name(account) {
        Some(RecordName::stash(account))
    } else {
        None
    }
}

fn names(alloc: Global, share: &mut MemShare) -> Result<String, test::Fail>
    requires { 1 ≤ (seen_of share.old).spare }
{
    match share.names(alloc) {
        Ok(names) => joined(alloc, &names),
        Err(fault) => Ok(format!(in alloc; "{}", fault_text(&fault))?),
    }
}

// The names, each with a space behind it.
fn joined(alloc: Global, names: &[RecordName]) -> Result<String, test::Fail> {
    let mut text = String::new(alloc);
    for name in names {
        text.push_str(name.as_str())?;
        text.push(' ')?;
    }
    Ok(text)
}

fn get(alloc: Global, share: &mut MemShare) -> Result<String, test::Fail>
    requires { 1 ≤ (seen_of share.old).spare }
{
    let Some(name) = stash_of("ann") else {
        return Err(test::Fail::new("ann"));
    };
    match share.get(alloc, &name) {
        Ok(Some(bytes)) => Ok(format!(in alloc; "{}", str::from_utf8(bytes.as_slice())?)?),
        Ok(None) => Ok(format!(in alloc; "none")?),
        Err(fault) => Ok(format!(in alloc; "{}", fault_text(&fault))?),
    }
}

fn put(alloc: Global, share: &mut MemShare, bytes: &str) -> Result<&'static str, test::Fail>
    requires { 1 ≤ (seen_of share.old).spare }
{
    let Some(name) = stash_of("ann") else {
        return Err(test::Fail::new("ann"));
    };
    if bytes.len() > 49_181 {
        return Err(test::Fail::new("the record is too long"));
    }
    let bytes = Blob::from_slice(alloc, bytes.as_bytes())?;
    Ok(done_text(&share.put(&name, bytes)))
}

fn remove(share: &mut MemShare) -> Result<&'static str, test::Fail>
    requires { 1 ≤ (seen_of share.old).spare }
{
    let Some(name) = stash_of("ann") else {
        return Err(test::Fail::new("ann"));
    };
    Ok(done_text(&share.remove(&name)))
}

fn insert(alloc: Global, share: &mut MemShare) -> Result<String, test::Fail>
    requires { 1 ≤ (seen_of share.old).spare }
{
    let leaf = NewLeaf {
        les: [LES; 32],
        hes: [HES; 32],
        reset: [RESET; 32],
        schedule: Schedule::usual(),
    };
    match share.insert_leaf(&leaf, MOMENT) {
        Ok(label) => Ok(format!(in alloc; "label {}", label.number())?),
        Err(fault) => Ok(format!(in alloc; "{}", fault_text(&fault))?),
    }
}

fn reset(share: &mut MemShare, label: Label, secret: u8) -> &'static str
    requires { 1 ≤ (seen_of share.old).spare }
{
    match share.reset_leaf(label, &[secret; 32], MOMENT) {
        Ok(true) => "fits",
        Ok(false) => "doesn't fit",
        Err(fault) => fault_text(&fault),
    }
}

fn look(alloc: Global, share: &mut MemShare, label: Label) -> Result<String, test::Fail>
    requires { 1 ≤ (seen_of share.old).spare }
{
    match share.leaf(label) {
        Ok(Some(view)) => Ok(format!(in alloc; "{} wrong", view.wrong)?),
        Ok(None) => Ok(format!(in alloc; "none")?),
        Err(fault) => Ok(format!(in alloc; "{}", fault_text(&fault))?),
    }
}

// The answer of a call on the leaf.
fn leaf_answer(
    alloc: Global,
    share: &mut MemShare,
    call: Call,
    label: Label,
) -> Result<String, test::Fail>
    requires { 1 ≤ (seen_of share.old).spare }
{
    let text = match call {
        Call::Try(les) => try_text(&share.try_leaf(label, &[les; 32], MOMENT)),
        Call::Reset(secret) => reset(share, label, secret),
        Call::RemoveLeaf => done_text(&share.remove_leaf(label, MOMENT)),
        _ => return look(alloc, share, label),
    };
    Ok(format!(in alloc; "{text}")?)
}

/// The answer of a call.
pub fn answer(alloc: Global, share: &mut MemShare, call: Call) -> Result<String, test::Fail> {
    let Some(label) = Label::new(0) else {
        return Err(test::Fail::new("0 is a label"));
    };
    share.stock(alloc, 1)?;
    let text = match call {
        Call::Names => return names(alloc, share),
        Call::Get => return get(alloc, share),
        Call::Put(bytes) => put(alloc, share, bytes)?,
        Call::Remove => remove(share)?,
        Call::Insert => return insert(alloc, share),
        _ => return leaf_answer(alloc, share, call, label),
    };
    Ok(format!(in alloc; "{text}")?)
}

/// Makes calls, which must answer so.
pub fn check(alloc: Global, share: &mut MemShare, rows: &[(Call, &str)]) -> Outcome {
    for (call, want) in rows {
        let text = answer(alloc, share, *call)?;
        if text.as_str() != *want {
            return Err(test::Fail::new(format_args!("{text} and not {want}")));
        }
    }
    Ok(())
}
