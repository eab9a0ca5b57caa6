//! The payload of a stash: the vault key, and the reset secrets of PINs.

ghost use Rattle.std.specs.Prelude.{◌≡◌, [], IfOk, IfErr, Ok, Err};
ghost use Rattle.std.specs.FinMap as map;
ghost use Rattle.stash_format.specs.Faults.{Refuses};
ghost use Rattle.stash_format.specs.Resets.{reset_row_at, resets_at, reset_count_at};
ghost use Rattle.stash_format.specs.Payloads.{payload_read};

use crate::fault::RecordFault;
use crate::order::rises;
use crate::reset::Reset;
use ct_bytes::{Reader, Text};
use name_map::NameMap;
use record_fields::take_label;
use std::alloc::Global;

/// The most reset secrets of a payload.
const MAX_RESETS: u8 = 16;

/// The secrets of a home with factors.
#[derive(Debug, Drop)]
pub struct Payload {
    /// The key of the vault's files.
    pub vault: [u8; 32],
    /// The reset secrets of PINs by their labels.
    pub resets: NameMap<Reset>,
}

// The next reset secret is put to those before it, and its label is the last one from then on.
#[tactic(auto, unfolding(crate::specs::Resets::reset_row_at))]
fn take_reset<'a>(
    alloc: Global,
    reader: &mut Reader<'a>,
    last: &str,
    resets: &mut NameMap<Reset>,
) -> Result<&'a str, RecordFault>
    ensures ok { IfOk result (λ label.
        reset_row_at last.now resets.old reader.old ≡ Ok ((label.now, resets.new), reader.new)) }
    ensures err { IfErr result (λ fault. Refuses fault (reset_row_at last.now resets.old reader.old)) }
{
    let place = reader.place();
    let label = take_label(reader)?;
    if !rises(last, label) {
        return Err(RecordFault::BadStash(place));
    }
    let edition = reader.take_u64()?;
    let mut secret = [0; 32];
    secret.copy_from_slice(reader.take(32)?);
    resets.insert(Text::from_str(alloc, label)?, Reset { edition, secret })?;
    Ok(label)
}

// So many reset secrets.
fn take_resets(
    alloc: Global,
    reader: &mut Reader<'_>,
    count: u8,
) -> Result<NameMap<Reset>, RecordFault>
    ensures ok { IfOk result (λ resets. resets_at count [] map.empty reader.old ≡ Ok (resets, reader.new)) }
    ensures err { IfErr result (λ fault. Refuses fault (resets_at count [] map.empty reader.old)) }
{
    let mut resets = NameMap::new(alloc);
    let mut last = "";
    'rows: for _ in 0..count {
        last = take_reset(alloc, reader, last, &mut resets)?;
    }
    Ok(resets)
}

// The number of reset secrets.
#[tactic(auto, unfolding(crate::specs::Resets::reset_count_at))]
fn take_reset_count(reader: &mut Reader<'_>) -> Result<u8, RecordFault>
    ensures ok { IfOk result (λ count. reset_count_at reader.old ≡ Ok (count, reader.new)) }
    ensures err { IfErr result (λ fault. reset_count_at reader.old ≡ Err fault) }
{
    let place = reader.place();
    let count = reader.take_u8()?;
    if count > MAX_RESETS {
        return Err(RecordFault::BadStash(place));
    }
    Ok(count)
}

/// What an opened payload holds (docs/FORMATS.md, "Payload of a stash").
///
/// `BadStash` with the first place in the opened bytes, also where a byte stands behind the end.
#[tactic(auto, unfolding(crate::specs::Payloads::payload_read))]
pub fn read_payload(alloc: Global, bytes: &[u8]) -> Result<Payload, RecordFault>
    ensures ok { IfOk result (λ payload. payload_read bytes.now ≡ Ok payload) }
    ensures err { IfErr result (λ fault. Refuses fault (payload_read bytes.now)) }
{
    let mut reader = Reader::new(bytes);
    let mut vault = [0; 32];
    vault.copy_from_slice(reader.take(32)?);
    let count = take_reset_count(&mut reader)?;
    let resets = take_resets(alloc, &mut reader, count)?;
    reader.finish()?;
    Ok(Payload { vault, resets })
}
