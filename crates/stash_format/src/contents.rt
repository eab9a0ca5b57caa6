//! A whole record.

ghost use Rattle.std.specs.Prelude.{◌≡◌, ◌<◌, ◌≤◌, ◌^◌, length, IfOk, IfErr, IfSome, Ok, Err};
ghost use Rattle.std.specs.FinMap.{len};
ghost use Rattle.stash_format.specs.Faults.{Refuses};
ghost use Rattle.stash_format.specs.Fields.{seen_head};
ghost use Rattle.stash_format.specs.Held.{sealed_at, held_at};
ghost use Rattle.stash_format.specs.Record.{stash_read};
ghost use Rattle.stash_format.specs.Kept.{HasRows, IsStash};

use crate::block::Block;
use crate::blocks::take_blocks;
use crate::fault::RecordFault;
use crate::fields::{Head, WITHOUT_FACTORS, take_block_count, take_head};
use ct_bytes::{Blob, Reader, Text};
use name_map::NameMap;
use sealed_text::Sealed;
use std::alloc::Global;

/// What a stash's record holds. Its version isn't among it: what is written has version 2.
#[derive(Debug, Drop)]
pub struct Contents {
    /// The account.
    pub account: Text,
    /// The edition that the next factor gets.
    pub next: u64,
    /// The sealed payload of a home with factors.
    pub payload: Option<Sealed>,
    /// The factors' blocks by their labels.
    pub blocks: NameMap<Block>,
}

// A sealed payload.
#[tactic(auto, unfolding(crate::specs::Held::sealed_at))]
fn take_sealed(alloc: Global, reader: &mut Reader<'_>) -> Result<Sealed, RecordFault>
    ensures ok { IfOk result (λ sealed. sealed_at reader.old ≡ Ok (sealed, reader.new)) }
    ensures err { IfErr result (λ fault. Refuses fault (sealed_at reader.old)) }
    ensures small { IfOk result (λ sealed. length sealed.text < 2 ^ 16) }
{
    let mut iv = [0; 12];
    iv.copy_from_slice(reader.take(12)?);
    let size = reader.take_u16()?;
    let text = reader.take(size as usize)?;
    let mut tag = [0; 16];
    tag.copy_from_slice(reader.take(16)?);
    Ok(Sealed {
        iv,
        text: Blob::from_slice(alloc, text)?,
        tag,
    })
}

// What a home with factors holds.
#[tactic(auto, using(crate::proofs::Rows::HasRows_empty, crate::proofs::Rows::few_empty), unfolding(crate::specs::Held::held_at))]
fn take_held(
    alloc: Global,
    reader: &mut Reader<'_>,
    head: &Head<'_>,
) -> Result<(Option<Sealed>, NameMap<Block>), RecordFault>
    ensures ok { IfOk result (λ held. held_at (seen_head head.now) reader.old ≡ Ok (held, reader.new)) }
    ensures err { IfErr result (λ fault. Refuses fault (held_at (seen_head head.now) reader.old)) }
    ensures small { IfOk result (λ held. IfSome held.0 (λ sealed. length sealed.text < 2 ^ 16)) }
    ensures rows { IfOk result (λ held. HasRows head.now.next held.1) }
    ensures few { IfOk result (λ held. len held.1 ≤ 32) }
{
    if head.state == WITHOUT_FACTORS {
        return Ok((None, NameMap::new(alloc)));
    }
    let payload = take_sealed(alloc, reader)?;
    let count = take_block_count(reader, head.version)?;
    let blocks = take_blocks(alloc, reader, head.version, head.next, count)?;
    Ok((Some(payload), blocks))
}

/// What the bytes of a record hold (docs/FORMATS.md, "Stash record").
///
/// `BadStash` with the first place, also where a byte stands behind the record's end.
#[tactic(auto, unfolding(crate::specs::Record::stash_read))]
pub fn read_contents(alloc: Global, bytes: &[u8]) -> Result<Contents, RecordFault>
    ensures ok { IfOk result (λ contents. stash_read bytes.now ≡ Ok contents) }
    ensures err { IfErr result (λ fault. Refuses fault (stash_read bytes.now)) }
    ensures kept { IfOk result IsStash }
{
    let mut reader = Reader::new(bytes);
    let head = take_head(&mut reader)?;
    let (payload, blocks) = take_held(alloc, &mut reader, &head)?;
    reader.finish()?;
    Ok(Contents {
        account: Text::from_str(alloc, head.account)?,
        next: head.next,
        payload,
        blocks,
    })
}
