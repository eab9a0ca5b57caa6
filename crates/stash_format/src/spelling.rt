//! Writing a record and a payload.

ghost use Rattle.std.specs.Prelude.{◌≡◌, ℕ, List, ◌++◌, ◌+◌, ◌<◌, ◌≤◌, ◌^◌, length, All, IsTrue, IsSome, IfSome, IfOk, OnOk, Ok};
ghost use Rattle.std.specs.Int.{w64, to_be_bytes};
ghost use Rattle.std.specs.List.{flat_map};
ghost use Rattle.ct_bytes.specs.Fields.{field8};
ghost use Rattle.std.specs.FinMap.{entries};
ghost use Rattle.home_names.specs.Names.{is_factor_label};
ghost use Rattle.stash_format.specs.declared.block.Block.{Block as BlockSeen};
ghost use Rattle.stash_format.specs.declared.reset.Reset.{Reset as ResetSeen};
ghost use Rattle.stash_format.specs.Forms.{form_number};
ghost use Rattle.stash_format.specs.Record.{stash_read};
ghost use Rattle.stash_format.specs.Payloads.{payload_read};
ghost use Rattle.stash_format.specs.Spelling.{block_bytes, row_bytes, sealed_bytes, held_bytes, stash_bytes, reset_bytes, payload_bytes};
ghost use Rattle.stash_format.specs.Sizes.{payload_size, most_beside_payload, most_payload};
ghost use Rattle.stash_format.specs.Spelled.{HasSpelling, HasBlockSizes, HasSealedSizes, HasSizes, HasResetSizes, HasResetSpelling};

use crate::block::{Block, Form};
use crate::contents::Contents;
use crate::fields::{VERSION, WITH_FACTORS, WITHOUT_FACTORS};
use crate::reset::Reset;
use ct_bytes::{Blob, NoMemory, Text};
use name_map::NameMap;
use sealed_text::Sealed;
use std::alloc::Global;

impl Form {
    /// The number of the form in a record.
    pub fn number(self) -> u8
        ensures value { result ≡ form_number self }
    {
        match self {
            Form::Plain => 1,
            Form::Bound => 2,
        }
    }
}

// A name behind its length.
fn put_name(out: &mut Blob, name: &Text) -> Result<(), NoMemory>
    requires { length name.now < 256 }
    ensures ok { OnOk result (out.new ≡ out.old ++ field8 name.now) }
{
    let bytes = name.as_str().as_bytes();
    out.push_slice(&[bytes.len() as u8])?;
    out.push_slice(bytes)
}

// A block behind its label.
#[tactic(auto, unfolding(crate::specs::Spelling::block_bytes))]
fn put_block(out: &mut Blob, block: &Block) -> Result<(), NoMemory>
    ensures ok { OnOk result (out.new ≡ out.old ++ block_bytes block.now) }
    ensures sizes { HasBlockSizes block.now }
{
    out.push_slice(&block.edition.to_be_bytes())?;
    out.push_slice(&[block.form.number()])?;
    out.push_slice(&block.iv)?;
    out.push_slice(&block.text)?;
    out.push_slice(&block.tag)
}

// Labels and blocks.
fn put_rows(out: &mut Blob, rows: &[(Text, Block)]) -> Result<(), NoMemory>
    requires { All (λ (row : List ℕ × BlockSeen). IsTrue (is_factor_label row.0)) rows.now }
    ensures ok { OnOk result (out.new ≡ out.old ++ flat_map row_bytes rows.now) }
    ensures sizes { OnOk result (All (λ (row : List ℕ × BlockSeen). HasBlockSizes row.1) rows.now) }
{
    'rows: for row in rows {
        put_name(out, &row.0)?;
        put_block(out, &row.1)?;
    }
    Ok(())
}

// A sealed payload.
#[tactic(auto, unfolding(crate::specs::Spelling::sealed_bytes))]
fn put_sealed(out: &mut Blob, sealed: &Sealed) -> Result<(), NoMemory>
    requires { length sealed.now.text < 2 ^ 16 }
    ensures ok { OnOk result (out.new ≡ out.old ++ sealed_bytes sealed.now) }
    ensures sizes { OnOk result (HasSealedSizes sealed.now) }
{
    let text = sealed.text.as_slice();
    out.push_slice(&sealed.iv)?;
    out.push_slice(&(text.len() as u16).to_be_bytes())?;
    out.push_slice(text)?;
    out.push_slice(&sealed.tag)
}

// Labels and reset secrets.
fn put_resets(out: &mut Blob, rows: &[(Text, Reset)]) -> Result<(), NoMemory>
    requires { All (λ (row : List ℕ × ResetSeen). IsTrue (is_factor_label row.0)) rows.now }
    ensures ok { OnOk result (out.new ≡ out.old ++ flat_map reset_bytes rows.now) }
    ensures sizes { OnOk result (All (λ (row : List ℕ × ResetSeen). HasResetSizes row.1) rows.now) }
{
    'rows: for row in rows {
        put_name(out, &row.0)?;
        put_reset(out, &row.1)?;
    }
    Ok(())
}

// A reset secret behind its label.
fn put_reset(out: &mut Blob, reset: &Reset) -> Result<(), NoMemory>
    ensures ok { OnOk result (out.new ≡ out.old ++ (to_be_bytes w64 reset.now.edition ++ reset.now.secret)) }
    ensures sizes { HasResetSizes reset.now }
{
    out.push_slice(&reset.edition.to_be_bytes())?;
    out.push_slice(&reset.secret)
}

// What a home with factors holds, and the state of one without.
fn put_held(
    out: &mut Blob,
    payload: &Option<Sealed>,
    rows: &[(Text, Block)],
) -> Result<(), NoMemory>
    requires text { IfSome payload.now (λ sealed. length sealed.text < 2 ^ 16) }
    requires labels { All (λ (row : List ℕ × BlockSeen). IsTrue (is_factor_label row.0)) rows.now }
    requires few { length rows.now ≤ 32 }
    ensures ok { OnOk result (out.new ≡ out.old ++ held_bytes payload.now rows.now) }
    ensures sizes { OnOk result (IsSome payload.now → All (λ (row : List ℕ × BlockSeen). HasBlockSizes row.1) rows.now) }
    ensures sealed { OnOk result (IfSome payload.now HasSealedSizes) }
{
    let Some(sealed) = payload else {
        return out.push_slice(&[WITHOUT_FACTORS]);
    };
    out.push_slice(&[WITH_FACTORS])?;
    put_sealed(out, sealed)?;
    out.push_slice(&[rows.len() as u8])?;
    put_rows(out, rows)
}

// The record of these contents, and what their types say of their sizes.
#[tactic(auto, unfolding(crate::specs::Spelling::stash_bytes))]
fn written_contents(alloc: Global, contents: &Contents) -> Result<Blob, NoMemory>
    requires { HasSpelling contents.now }
    ensures value { IfOk result (λ bytes. bytes ≡ stash_bytes contents.now) }
    ensures sizes { IfOk result (λ _. HasSizes contents.now) }
{
    let mut out = Blob::from_slice(alloc, &[VERSION])?;
    put_name(&mut out, &contents.account)?;
    out.push_slice(&contents.next.to_be_bytes())?;
    put_held(&mut out, &contents.payload, contents.blocks.rows())?;
    Ok(out)
}

/// The record of these contents, of version 2 (docs/FORMATS.md, "Stash record").
#[tactic(auto, using(crate::proofs::StashAgain::stash_again, crate::proofs::SizeLemmas::stash_within))]
pub fn spell_contents(alloc: Global, contents: &Contents) -> Result<Blob, NoMemory>
    requires { HasSpelling contents.now }
    ensures value { IfOk result (λ bytes. bytes ≡ stash_bytes contents.now) }

    // What is written is read again.
    ensures read { IfOk result (λ bytes. stash_read bytes ≡ Ok contents.now) }

    // At most 2,826 bytes besides the payload's text.
    ensures size { IfOk result (λ bytes. length bytes ≤ most_beside_payload + payload_size contents.now) }
{
    written_contents(alloc, contents)
}

// The bytes of a payload, and what its types say of its sizes.
#[tactic(auto, unfolding(crate::specs::Spelling::payload_bytes))]
fn written_payload(
    alloc: Global,
    vault: &[u8; 32],
    resets: &NameMap<Reset>,
) -> Result<Blob, NoMemory>
    requires { HasResetSpelling resets.now }
    ensures value { IfOk result (λ bytes. bytes ≡ payload_bytes vault.now resets.now) }
    ensures sizes { IfOk result (λ _. All (λ (row : List ℕ × ResetSeen). HasResetSizes row.1) (entries resets.now)) }
    ensures vault { IfOk result (λ _. length vault.now ≡ 32) }
{
    let rows = resets.rows();
    let mut out = Blob::from_slice(alloc, vault)?;
    out.push_slice(&[rows.len() as u8])?;
    put_resets(&mut out, rows)?;
    Ok(out)
}

/// The bytes of a payload, before they are sealed (docs/FORMATS.md, "Payload of a stash").
#[tactic(auto, using(crate::proofs::StashAgain::payload_again, crate::proofs::SizeLemmas::payload_within))]
pub fn spell_payload(
    alloc: Global,
    vault: &[u8; 32],
    resets: &NameMap<Reset>,
) -> Result<Blob, NoMemory>
    requires { HasResetSpelling resets.now }
    ensures value { IfOk result (λ bytes. bytes ≡ payload_bytes vault.now resets.now) }

    // What is written is read again.
    ensures read { IfOk result (λ bytes. payload_read bytes ≡ Ok (record { vault = vault.now; resets = resets.now })) }
    ensures size { IfOk result (λ bytes. length bytes ≤ most_payload) }
{
    written_payload(alloc, vault, resets)
}
