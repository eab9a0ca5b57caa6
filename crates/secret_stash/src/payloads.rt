//! Sealing and opening the payload.

ghost use Rattle.std.specs.Prelude.{◌≡◌, ℕ, ◌<◌, ◌≤◌, ◌^◌, length, IfOk, Ok};
ghost use Rattle.std.specs.FinMap.{len};
ghost use Rattle.stash_format.specs.Kept.{HasRows};
ghost use Rattle.sealed_text.specs.Sealing.{sealed_under};
ghost use Rattle.stash_format.specs.Spelling.{payload_bytes};
ghost use Rattle.stash_format.specs.Sizes.{most_payload};
ghost use Rattle.secret_stash.specs.Faults.{Gives};
ghost use Rattle.secret_stash.specs.Keys.{opened_sealed, payload_or_fault, payload_extra};
ghost use Rattle.secret_stash.specs.Edits.{is_live, live_resets};
ghost use Rattle.sealed_text.specs.OpeningSealed.{opened};

use crate::bindings::payload_extra;
use crate::fault::StashFault;
use ct_bytes::{NoMemory, Text};
use name_map::{Copied, NameMap};
use sealed_text::Sealed;
use stash_format::{Block, Payload, Reset, read_payload, spell_payload};
use std::alloc::Global;

/// What the sealed payload of an account holds.
pub(crate) fn open_payload(
    alloc: Global,
    account: &str,
    sealed: &Sealed,
    main: &[u8; 32],
) -> Result<Payload, StashFault>
    requires account { length account.now < 256 }
    requires text { length sealed.now.text < 2 ^ 16 }
    ensures exact { Gives result (opened_sealed main.now account.now sealed.now) }
{
    let extra = payload_extra(alloc, account)?;
    let plain = sealed.open(alloc, main, extra.as_slice())?;
    Ok(read_payload(alloc, plain.as_slice())?)
}

// Whether a block names the reset secret by its label and edition.
fn is_live(blocks: &NameMap<Block>, row: &(Text, Reset)) -> bool
    ensures value { result ≡ is_live blocks.now row.now }
{
    match blocks.get(&row.0) {
        Some(block) => block.edition == row.1.edition,
        None => false,
    }
}

// The reset secrets that a block names by label and edition.
fn live_resets(
    alloc: Global,
    blocks: &NameMap<Block>,
    resets: &NameMap<Reset>,
) -> Result<NameMap<Reset>, NoMemory>
    ensures value { IfOk result (λ live. live ≡ live_resets blocks.now resets.now) }
{
    let mut live = NameMap::new(alloc);
    'rows: for row in resets.rows() {
        if is_live(blocks, row) {
            live.insert(row.0.copy()?, row.1)?;
        }
    }
    Ok(live)
}

/// A payload under the main key, without the reset secrets that no block names.
#[tactic(auto, using(crate::proofs::LiveLemmas::opens_again, crate::proofs::LiveLemmas::small_again))]
pub(crate) fn seal_payload(
    alloc: Global,
    account: &str,
    blocks: &NameMap<Block>,
    main: &[u8; 32],
    payload: &Payload,
    iv: [u8; 12],
) -> Result<Sealed, NoMemory>
    requires account { length account.now < 256 }
    requires rows { (next : ℕ) × HasRows next blocks.now }
    requires few { len payload.now.resets ≤ 16 }
    ensures value { IfOk result (λ sealed. sealed ≡ sealed_under main.now iv (payload_extra account.now)
        (payload_bytes payload.now.vault (live_resets blocks.now payload.now.resets))) }
    ensures opens { IfOk result (λ sealed. opened_sealed main.now account.now sealed
        ≡ Ok (record { vault = payload.now.vault; resets = live_resets blocks.now payload.now.resets })) }
    ensures small { IfOk result (λ sealed. length sealed.text ≤ most_payload) }
{
    let live = live_resets(alloc, blocks, &payload.resets)?;
    let plain = spell_payload(alloc, &payload.vault, &live)?;
    let extra = payload_extra(alloc, account)?;
    Sealed::seal(alloc, main, iv, extra.as_slice(), plain.as_slice())
}
