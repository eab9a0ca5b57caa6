//! What the records and leaves of a home hold, as text.

ghost use Rattle.std.specs.Prelude.{◌<◌, None, IsTrue};
ghost use Rattle.std.specs.FinMap.{len};
ghost use Rattle.home_names.specs.Names.{is_factor_label};
ghost use Rattle.share_api.specs.Conditions.{IsOwnName};

use crate::bench::{MAIN, Outcome, ann};
use crate::edits::{high_of, reset_of};
use factor_files::FactorRecord;
use home_names::is_factor_label;
use mem_share::MemShare;
use pw_path::Label;
use record_names::RecordName;
use secret_stash::{Payload, Stash, pin_wrap};
use share_api::Share;
use std::alloc::Global;
use std::test;

/// The names of what is there, each with a space behind it.
pub fn names_text(alloc: Global, share: &mut MemShare) -> Result<String, test::Fail> {
    share.stock(alloc, 1)?;
    let Ok(names) = share.names(alloc) else {
        return Err(test::Fail::new("the names aren't listed"));
    };
    let mut text = String::new(alloc);
    for name in &names {
        text.push_str(name.as_str())?;
        text.push(' ')?;
    }
    Ok(text)
}

// The stash that is there.
fn stash_there(alloc: Global, share: &mut MemShare) -> Result<Stash, test::Fail> {
    share.stock(alloc, 1)?;
    match share.get(alloc, &RecordName::stash(ann())) {
        Ok(Some(bytes)) => Ok(Stash::read(alloc, bytes.as_slice())?),
        _ => Err(test::Fail::new("there is no stash")),
    }
}

// The name of a factor's record.
fn factor_name(label: &str, edition: u64) -> RecordName
    requires { IsTrue (is_factor_label label.now) }
    ensures { IsOwnName None result }
{
    RecordName::factor(ann(), label, edition)
}

// The record of a factor.
fn row_there(
    alloc: Global,
    share: &mut MemShare,
    label: &str,
    edition: u64,
) -> Result<FactorRecord, test::Fail> {
    share.stock(alloc, 1)?;
    if !is_factor_label(label) {
        return Err(test::Fail::new(label));
    }
    match share.get(alloc, &factor_name(label, edition)) {
        Ok(Some(bytes)) => Ok(FactorRecord::read(alloc, bytes.as_slice())?),
        _ => Err(test::Fail::new(label)),
    }
}

// The count of wrong tries of a leaf.
fn count_of(alloc: Global, share: &mut MemShare, tree: Label) -> Result<u32, test::Fail> {
    share.stock(alloc, 1)?;
    match share.leaf(tree) {
        Ok(Some(view)) => Ok(view.wrong),
        _ => Err(test::Fail::new("the leaf isn't there")),
    }
}

// Whether a PIN's block opens to the main key, and the payload has its reset secret.
fn is_whole(stash: &Stash, payload: &Payload, row: &FactorRecord) -> bool {
    let byte = row.salt[0];
    let wrap = pin_wrap(&high_of(byte), &[byte; 64]);
    let opens = match stash.open_with(row.label.as_str(), &wrap) {
        Ok(main) => main == MAIN,
        Err(_) => false,
    };
    let resets = match payload.resets.get(&row.label) {
        Some(reset) => reset.edition == row.edition && reset.secret == reset_of(byte),
        None => false,
    };
    opens && resets && row.cost == 4
}

// Adds a PIN: its label and edition, the byte of its key, its leaf's label and count. A password adds nothing.
fn add_pin(
    alloc: Global,
    share: &mut MemShare,
    stash: &Stash,
    payload: &Payload,
    at: usize,
    text: &mut String,
) -> Outcome
    requires { at < len stash.now.blocks }
{
    let (label, edition) = stash.block(at);
    let row = row_there(alloc, share, label, edition)?;
    let Some(tree) = row.leaf else {
        return Ok(());
    };
    let wrong = count_of(alloc, share, tree)?;
    if row.edition != edition || !is_whole(stash, payload, &row) {
        return Err(test::Fail::new(label));
    }
    let byte = row.salt[0];
    let number = tree.number();
    let pin = format!(in alloc; ", {label} {edition} by {byte} at {number} wrong {wrong}")?;
    text.push_str(pin.as_str())?;
    Ok(())
}

/// What the records and leaves hold: their names, the next edition and each PIN.
pub fn home_text(alloc: Global, share: &mut MemShare) -> Result<String, test::Fail> {
    let mut text = names_text(alloc, share)?;
    let stash = stash_there(alloc, share)?;
    if !stash.has_payload() {
        return Err(test::Fail::new("the stash has no payload"));
    }
    let payload = stash.payload(&MAIN)?;
    let next = format!(in alloc; "next {}", stash.next())?;
    text.push_str(next.as_str())?;
    for at in 0..stash.count() {
        add_pin(alloc, share, &stash, &payload, at, &mut text)?;
    }
    Ok(text)
}
