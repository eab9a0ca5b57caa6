//! What the try of a PIN needs, made before any device step: once the leaf was tried no memory may be wanted.

ghost use Rattle.std.specs.Prelude.{◌≡◌, ◌<◌, ◌≤◌, ◌∷◌, ◌++◌, [], length, IfOk, IfSome, IsSome, IsSomeAnd, IsTrue, Some, option_copied};
ghost use Rattle.std.specs.FinMap.{get};
ghost use Rattle.std.specs.Int.{w64, to_be_bytes};
ghost use Rattle.record_names.specs.Names.{is_factor_label};
ghost use Rattle.scrypt_kdf.specs.Derive.{derive};
ghost use Rattle.sealed_text.specs.OpeningSealed.{opened};
ghost use Rattle.stash_format.specs.Forms.{extra_by, block_extra, main_of};
ghost use Rattle.stash_format.specs.Kept.{HasBoth};
ghost use Rattle.stash_format.specs.declared.contents.Contents.{Contents as StashSeen};
ghost use Rattle.turn_secrets.specs.Checked.{IsOfSecret};
ghost use Rattle.turn_pins.specs.Trying.{IsTrial};

use ct_bytes::{Blob, NoMemory, Text};
use factor_files::FactorRecord;
use gcm_seal::{BadTag, open_in_place};
use pw_path::Label;
use scrypt_kdf::derive;
use secret_stash::Stash;
use stash_format::{Block, Form, read_contents};
use std::alloc::Global;
use stored_home::{Derived, Stored};

/// A PIN that is to be tried.
#[derive(Drop)]
pub struct Trial {
    /// The factor's label.
    pub label: Text,
    /// The leaf's label.
    pub tree: Label,
    /// What is derived of the secret.
    pub key: [u8; 64],
    /// The PIN's block.
    pub block: Block,
    /// What the block is bound to.
    pub extra: Blob,
}

// What is derived of the secret with the record's salt and cost. A derived key with others isn't used.
fn key_of(
    alloc: Global,
    row: &FactorRecord,
    secret: &Text,
    derived: Option<&Derived>,
) -> Result<[u8; 64], NoMemory>
    requires least { 1 ≤ row.now.cost }
    requires most { row.now.cost ≤ 16 }
    requires derived { IfSome (option_copied derived) (IsOfSecret secret.now) }
    ensures { IfOk result (λ key. key ≡ derive secret.now row.now.salt row.now.cost) }
{
    if let Some(known) = derived {
        if known.salt == row.salt && known.cost == row.cost {
            return Ok(known.key);
        }
    }
    derive(alloc, secret.as_str().as_bytes(), &row.salt, row.cost)
}

// A copy of the label's block. A stash shows its blocks in its record alone.
fn block_of(alloc: Global, stash: &Stash, label: &Text) -> Result<Block, NoMemory>
    requires both { HasBoth stash.now }
    requires there { IsSome (get stash.now.blocks label.now) }
    ensures { IfOk result (λ block. get stash.now.blocks label.now ≡ Some block) }
{
    let Ok(bytes) = stash.write() else {
        return Err(NoMemory);
    };
    let Ok(contents) = read_contents(alloc, bytes.as_slice()) else {
        return Err(NoMemory);
    };
    let Some(block) = contents.blocks.get(label) else {
        unreachable!()
    };
    Ok(*block)
}

// Account, label and edition behind what was there.
fn bound(mut extra: Blob, account: &str, label: &str, edition: u64) -> Result<Blob, NoMemory>
    ensures value { IfOk result (λ whole. whole
        ≡ extra ++ account.now ++ (0 ∷ []) ++ label.now ++ (0 ∷ []) ++ to_be_bytes w64 edition) }
{
    extra.push_slice(account.as_bytes())?;
    extra.push_slice(&[0])?;
    extra.push_slice(label.as_bytes())?;
    extra.push_slice(&[0])?;
    extra.push_slice(&edition.to_be_bytes())?;
    Ok(extra)
}

// What the block of an account's label is bound to.
fn extra_of(alloc: Global, account: &str, label: &str, block: &Block) -> Result<Blob, NoMemory>
    requires account { length account.now < 256 }
    requires label { length label.now < 256 }
    ensures value { IfOk result (λ extra. extra ≡ block_extra account.now label.now block.now) }
    ensures size { IfOk result (λ extra. length extra < 1024) }
{
    let extra = Blob::from_slice(alloc, b"block")?;
    match block.form {
        Form::Plain => Ok(extra),
        Form::Bound => bound(extra, account, label, block.edition),
    }
}

// The block and what it is bound to.
fn sealed_of(alloc: Global, stash: &Stash, label: &Text) -> Result<(Block, Blob), NoMemory>
    requires both { HasBoth stash.now }
    requires there { IsSome (get stash.now.blocks label.now) }
    requires label { IsTrue (is_factor_label label.now) }
    ensures block { IfOk result (λ made. get stash.now.blocks label.now ≡ Some made.0) }
    ensures extra { IfOk result (λ made. made.1 ≡ block_extra stash.now.account label.now made.0) }
    ensures size { IfOk result (λ made. length made.1 < 1024) }
{
    let block = block_of(alloc, stash, label)?;
    let extra = extra_of(alloc, stash.account(), label.as_str(), &block)?;
    Ok((block, extra))
}

/// What the try of a loaded PIN needs.
pub(crate) fn prepare(
    alloc: Global,
    stored: &Stored,
    label: &Text,
    secret: &Text,
    derived: Option<&Derived>,
) -> Result<Trial, NoMemory>
    requires label { IsTrue (is_factor_label label.now) }
    requires both { IsSomeAnd stored.now.stash (λ stash. HasBoth stash × IsSome (get stash.blocks label.now)) }
    requires known { IsSomeAnd (get stored.now.factors label.now)
        (λ row. IsSome row.leaf × (1 ≤ row.cost) × (row.cost ≤ 16)) }
    requires derived { IfSome (option_copied derived) (IsOfSecret secret.now) }
    ensures trial { IfOk result (IsTrial stored.now label.now secret.now) }
    ensures size { IfOk result (λ made. length made.extra < 1024) }
{
    let Some(stash) = &stored.stash else {
        unreachable!()
    };
    let Some(row) = stored.factors.get(label) else {
        unreachable!()
    };
    let Some(tree) = row.leaf else { unreachable!() };
    let label = label.copy()?;
    let (block, extra) = sealed_of(alloc, stash, &label)?;
    let key = key_of(alloc, row, secret, derived)?;
    Ok(Trial {
        label,
        tree,
        key,
        block,
        extra,
    })
}

/// The main key of a block under a wrap key. It takes no memory.
#[tactic(auto, using(sealed_text::proofs::OpeningLemmas::opened_by_tag))]
pub(crate) fn open(block: &Block, extra: &[u8], wrap: &[u8; 32]) -> Option<[u8; 32]>
    requires { length extra.now < 1024 }
    ensures { result ≡ opened wrap.now extra.now (main_of block.now) }
{
    let mut main = block.text;
    match open_in_place(wrap, &block.iv, extra, &mut main, &block.tag) {
        Ok(()) => Some(main),
        Err(BadTag) => None,
    }
}
