//! The fields of a stash's record, one by one.

ghost use Rattle.std.specs.Prelude.{◌≡◌, ◌≤◌, IsTrue, IfOk, IfErr, Ok, Err};
ghost use Rattle.home_names.specs.Names.{is_account_name};
ghost use Rattle.stash_format.specs.Fields.{
  version_at,
  next_at,
  state_at,
  head_at,
  seen_head,
  edition_at,
  form_at,
  block_count_at,
  block_at,
};

use crate::block::{Block, Form};
use crate::fault::RecordFault;
use ct_bytes::Reader;
use record_fields::take_account;

/// The version of records without forms.
pub(crate) const FIRST_VERSION: u8 = 1;

/// The version of records that are written.
pub(crate) const VERSION: u8 = 2;

/// The state of a home without factors.
pub(crate) const WITHOUT_FACTORS: u8 = 0;

/// The state of a home with factors.
pub(crate) const WITH_FACTORS: u8 = 1;

/// The most blocks of a record of version 1.
const MAX_FIRST_BLOCKS: u8 = 16;

/// The most blocks of a record.
const MAX_BLOCKS: u8 = 32;

/// The fields in front of every record.
#[derive(Drop)]
pub(crate) struct Head<'a> {
    pub version: u8,
    pub account: &'a str,
    pub next: u64,
    pub state: u8,
}

#[tactic(auto, unfolding(crate::specs::Fields::version_at))]
fn take_version(reader: &mut Reader<'_>) -> Result<u8, RecordFault>
    ensures ok { IfOk result (λ version. version_at reader.old ≡ Ok (version, reader.new)) }
    ensures err { IfErr result (λ fault. version_at reader.old ≡ Err fault) }
{
    let place = reader.place();
    let version = reader.take_u8()?;
    if version != FIRST_VERSION && version != VERSION {
        return Err(RecordFault::BadStash(place));
    }
    Ok(version)
}

#[tactic(auto, unfolding(crate::specs::Fields::next_at))]
fn take_next(reader: &mut Reader<'_>) -> Result<u64, RecordFault>
    ensures ok { IfOk result (λ next. next_at reader.old ≡ Ok (next, reader.new)) }
    ensures err { IfErr result (λ fault. next_at reader.old ≡ Err fault) }
    ensures from { IfOk result (λ next. 1 ≤ next) }
{
    let place = reader.place();
    let next = reader.take_u64()?;
    if next < 1 {
        return Err(RecordFault::BadStash(place));
    }
    Ok(next)
}

#[tactic(auto, unfolding(crate::specs::Fields::state_at))]
fn take_state(reader: &mut Reader<'_>) -> Result<u8, RecordFault>
    ensures ok { IfOk result (λ state. state_at reader.old ≡ Ok (state, reader.new)) }
    ensures err { IfErr result (λ fault. state_at reader.old ≡ Err fault) }
{
    let place = reader.place();
    let state = reader.take_u8()?;
    if state > WITH_FACTORS {
        return Err(RecordFault::BadStash(place));
    }
    Ok(state)
}

/// Version, account, next edition and state.
#[tactic(auto, unfolding(crate::specs::Fields::head_at))]
pub(crate) fn take_head<'a>(reader: &mut Reader<'a>) -> Result<Head<'a>, RecordFault>
    ensures ok { IfOk result (λ head. head_at reader.old ≡ Ok (seen_head head, reader.new)) }
    ensures err { IfErr result (λ fault. head_at reader.old ≡ Err fault) }
    ensures plain { IfOk result (λ head. IsTrue (is_account_name head.account.now)) }
    ensures from { IfOk result (λ head. 1 ≤ head.next) }
{
    let version = take_version(reader)?;
    let account = take_account(reader)?;
    let next = take_next(reader)?;
    let state = take_state(reader)?;
    Ok(Head {
        version,
        account,
        next,
        state,
    })
}

/// The number of blocks, as the version allows it.
#[tactic(auto, unfolding(crate::specs::Fields::block_count_at))]
pub(crate) fn take_block_count(reader: &mut Reader<'_>, version: u8) -> Result<u8, RecordFault>
    ensures ok { IfOk result (λ count. block_count_at version reader.old ≡ Ok (count, reader.new)) }
    ensures err { IfErr result (λ fault. block_count_at version reader.old ≡ Err fault) }
    ensures few { IfOk result (λ count. count ≤ 32) }
{
    let place = reader.place();
    let count = reader.take_u8()?;
    let most = if version == FIRST_VERSION {
        MAX_FIRST_BLOCKS
    } else {
        MAX_BLOCKS
    };
    if count < 1 || count > most {
        return Err(RecordFault::BadStash(place));
    }
    Ok(count)
}

// The edition of a block, below the next one.
#[tactic(auto, unfolding(crate::specs::Fields::edition_at))]
fn take_edition(reader: &mut Reader<'_>, next: u64) -> Result<u64, RecordFault>
    ensures ok { IfOk result (λ edition. edition_at next reader.old ≡ Ok (edition, reader.new)) }
    ensures err { IfErr result (λ fault. edition_at next reader.old ≡ Err fault) }
{
    let place = reader.place();
    let edition = reader.take_u64()?;
    if edition >= next {
        return Err(RecordFault::BadStash(place));
    }
    Ok(edition)
}

// The form of a block, which a record of version 1 doesn't have.
#[tactic(auto, unfolding(crate::specs::Fields::form_at))]
fn take_form(reader: &mut Reader<'_>, version: u8) -> Result<Form, RecordFault>
    ensures ok { IfOk result (λ form. form_at version reader.old ≡ Ok (form, reader.new)) }
    ensures err { IfErr result (λ fault. form_at version reader.old ≡ Err fault) }
{
    if version == FIRST_VERSION {
        return Ok(Form::Plain);
    }
    let place = reader.place();
    match reader.take_u8()? {
        1 => Ok(Form::Plain),
        2 => Ok(Form::Bound),
        _ => Err(RecordFault::BadStash(place)),
    }
}

/// A block behind its label.
#[tactic(auto, unfolding(crate::specs::Fields::block_at))]
pub(crate) fn take_block(
    reader: &mut Reader<'_>,
    version: u8,
    next: u64,
) -> Result<Block, RecordFault>
    ensures ok { IfOk result (λ block. block_at version next reader.old ≡ Ok (block, reader.new)) }
    ensures err { IfErr result (λ fault. block_at version next reader.old ≡ Err fault) }
{
    let edition = take_edition(reader, next)?;
    let form = take_form(reader, version)?;
    let mut iv = [0; 12];
    iv.copy_from_slice(reader.take(12)?);
    let mut text = [0; 32];
    text.copy_from_slice(reader.take(32)?);
    let mut tag = [0; 16];
    tag.copy_from_slice(reader.take(16)?);
    Ok(Block {
        edition,
        form,
        iv,
        text,
        tag,
    })
}
