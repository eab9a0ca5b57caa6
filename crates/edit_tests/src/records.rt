//! The records of the account `ann` over a share in memory.

ghost use Rattle.std.specs.Prelude.{◌≤◌, None, IfSome, IsTrue, length};
ghost use Rattle.home_names.specs.Names.{is_account_name, is_factor_label};
ghost use Rattle.share_api.specs.Conditions.{IsOwnName};

use ct_bytes::Blob;
use home_names::is_factor_label;
use mem_share::{Fail, MemShare};
use record_names::RecordName;
use share_api::Share;
use std::alloc::Global;
use std::test;

pub type Outcome = Result<(), test::Fail>;

/// A record that isn't a leaf's: a factor's has a label and an edition, a vault file's a name.
#[derive(Clone, Copy)]
pub enum Record<'a> {
    Stash,
    Factor(&'a str, u64),
    File(&'a str),
}

/// The account's name.
pub fn ann() -> &'static str
    ensures { IsTrue (is_account_name result.now) }
{
    "ann"
}

/// A share with nothing, whose listed calls fail.
pub fn share_of(alloc: Global, fails: &[Fail]) -> Result<MemShare, test::Fail> {
    Ok(MemShare::new(alloc, 0, fails.to_vec(alloc)?)?)
}

// The name of a factor's record.
fn factor_name(label: &str, edition: u64) -> RecordName
    requires { IsTrue (is_factor_label label.now) }
    ensures { IsOwnName None result }
{
    RecordName::factor(ann(), label, edition)
}

// The name of a vault file's record.
fn file_name(name: &str) -> RecordName
    requires least { 1 ≤ length name.now }
    requires most { length name.now ≤ 64 }
    ensures { IsOwnName None result }
{
    RecordName::file(ann(), name)
}

/// The name of a record, where its parts are in their grammars.
pub fn name_of(record: Record<'_>) -> Option<RecordName>
    ensures { IfSome result (λ name. IsOwnName None name) }
{
    match record {
        Record::Stash => Some(RecordName::stash(ann())),
        Record::Factor(label, edition) if is_factor_label(label) => {
            Some(factor_name(label, edition))
        }
        Record::File(name) if !name.is_empty() && name.len() <= 64 => Some(file_name(name)),
        _ => None,
    }
}

/// The bytes of a record, where it is there.
pub fn read(
    alloc: Global,
    share: &mut MemShare,
    record: Record<'_>,
) -> Result<Option<Blob>, test::Fail> {
    share.stock(alloc, 1)?;
    let Some(name) = name_of(record) else {
        return Err(test::Fail::new("a part of the name is outside its grammar"));
    };
    match share.get(alloc, &name) {
        Ok(found) => Ok(found),
        Err(_) => Err(test::Fail::new(name.as_str())),
    }
}

/// Gives a record these bytes.
pub fn put(alloc: Global, share: &mut MemShare, record: Record<'_>, bytes: &[u8]) -> Outcome {
    share.stock(alloc, 1)?;
    let Some(name) = name_of(record) else {
        return Err(test::Fail::new("a part of the name is outside its grammar"));
    };
    if bytes.len() > 49_181 {
        return Err(test::Fail::new("the record is too long"));
    }
    match share.put(&name, Blob::from_slice(alloc, bytes)?) {
        Ok(()) => Ok(()),
        Err(_) => Err(test::Fail::new(name.as_str())),
    }
}

/// The names of what is there, each with a space behind it.
pub fn names_text(alloc: Global, share: &mut MemShare) -> Result<String, test::Fail> {
    share.stock(alloc, 1)?;
    let Ok(names) = share.names(alloc) else {
        return Err(test::Fail::new("the names aren't listed"));
    };
    let mut text = String::new(alloc);
    for name in &names {
        text.push_str(name.as_str())?;
        text.push(' ')?;
    }
    Ok(text)
}
