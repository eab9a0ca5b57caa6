//! What the records of a home hold, as text.

ghost use Rattle.std.specs.Prelude.{◌<◌};
ghost use Rattle.std.specs.FinMap.{len};

use crate::edits::MAIN;
use crate::records::{Outcome, Record, ann, names_text, read};
use factor_files::FactorRecord;
use mem_share::MemShare;
use secret_stash::Stash;
use std::alloc::Global;
use std::test;
use vault_crypt::open_file;

/// The names of the vault files of the tables.
const FILES: [&str; 2] = ["list", "plan"];

// Adds a factor: its label and edition, and the byte of its key where its block opens under it to the main key.
fn add_factor(
    alloc: Global,
    share: &mut MemShare,
    stash: &Stash,
    at: usize,
    text: &mut String,
) -> Outcome
    requires { at < len stash.now.blocks }
{
    let (label, edition) = stash.block(at);
    let Some(bytes) = read(alloc, share, Record::Factor(label, edition))? else {
        return Err(test::Fail::new(label));
    };
    let row = FactorRecord::read(alloc, bytes.as_slice())?;
    let byte = row.salt[0];
    let main = stash.open_with(label, &[byte; 32])?;
    if row.label.as_str() != label || row.edition != edition || row.cost != 1 || main != MAIN {
        return Err(test::Fail::new(label));
    }
    let factor = format!(in alloc; ", {label} {edition} by {byte}")?;
    text.push_str(factor.as_str())?;
    Ok(())
}

// Adds a vault file, where it is there: its name, and what its record has under the vault key.
fn add_file(
    alloc: Global,
    share: &mut MemShare,
    vault: &[u8; 32],
    name: &str,
    text: &mut String,
) -> Outcome {
    if name.is_empty() || name.len() > 64 {
        return Err(test::Fail::new(name));
    }
    let Some(bytes) = read(alloc, share, Record::File(name))? else {
        return Ok(());
    };
    let plain = open_file(alloc, vault, ann(), name, bytes.as_slice())?;
    let file = format!(in alloc; ", {name} has {}", str::from_utf8(plain.as_slice())?)?;
    text.push_str(file.as_str())?;
    Ok(())
}

// Adds what a stash with factors names.
fn add_home(alloc: Global, share: &mut MemShare, stash: &Stash, text: &mut String) -> Outcome {
    for at in 0..stash.count() {
        add_factor(alloc, share, stash, at, text)?;
    }
    if stash.has_payload() {
        let payload = stash.payload(&MAIN)?;
        for name in FILES {
            add_file(alloc, share, &payload.vault, name, text)?;
        }
    }
    Ok(())
}

/// What the records hold: their names, the next edition, each factor, and each vault file of the tables.
pub fn home_text(alloc: Global, share: &mut MemShare) -> Result<String, test::Fail> {
    let mut text = names_text(alloc, share)?;
    let Some(bytes) = read(alloc, share, Record::Stash)? else {
        return Ok(text);
    };
    let stash = Stash::read(alloc, bytes.as_slice())?;
    let next = format!(in alloc; "next {}", stash.next())?;
    text.push_str(next.as_str())?;
    add_home(alloc, share, &stash, &mut text)?;
    Ok(text)
}
