//! The blocks of a record, in rising order of their labels.

ghost use Rattle.std.specs.Prelude.{◌≡◌, ◌≤◌, [], IfOk, IfErr, Ok, Err};
ghost use Rattle.std.specs.FinMap as map;
ghost use Rattle.stash_format.specs.Faults.{Refuses};
ghost use Rattle.stash_format.specs.Blocks.{row_at, blocks_at};
ghost use Rattle.stash_format.specs.Kept.{HasRows};

use crate::block::Block;
use crate::fault::RecordFault;
use crate::fields::take_block;
use crate::order::rises;
use ct_bytes::{Reader, Text};
use name_map::NameMap;
use record_fields::take_label;
use std::alloc::Global;

// The next block is put to those before it, and its label is the last one from then on.
#[tactic(auto, unfolding(crate::specs::Blocks::row_at))]
fn take_row<'a>(
    alloc: Global,
    reader: &mut Reader<'a>,
    version: u8,
    next: u64,
    last: &str,
    blocks: &mut NameMap<Block>,
) -> Result<&'a str, RecordFault>
    ensures ok { IfOk result (λ label.
        row_at version next last.now blocks.old reader.old ≡ Ok ((label.now, blocks.new), reader.new)) }
    ensures err { IfErr result (λ fault. Refuses fault (row_at version next last.now blocks.old reader.old)) }
{
    let place = reader.place();
    let label = take_label(reader)?;
    if !rises(last, label) {
        return Err(RecordFault::BadStash(place));
    }
    let block = take_block(reader, version, next)?;
    blocks.insert(Text::from_str(alloc, label)?, block)?;
    Ok(label)
}

/// So many blocks.
pub(crate) fn take_blocks(
    alloc: Global,
    reader: &mut Reader<'_>,
    version: u8,
    next: u64,
    count: u8,
) -> Result<NameMap<Block>, RecordFault>
    ensures ok { IfOk result (λ blocks.
        blocks_at count version next [] map.empty reader.old ≡ Ok (blocks, reader.new)) }
    ensures err { IfErr result (λ fault. Refuses fault (blocks_at count version next [] map.empty reader.old)) }
    ensures rows { IfOk result (HasRows next) }
    ensures few { IfOk result (λ blocks. map.len blocks ≤ count) }
{
    let mut blocks = NameMap::new(alloc);
    let mut last = "";
    'rows: for _ in 0..count {
        last = take_row(alloc, reader, version, next, last, &mut blocks)?;
    }
    Ok(blocks)
}
