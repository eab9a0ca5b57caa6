//! Wrapping and unwrapping the main key.

ghost use Rattle.std.specs.Prelude.{◌≡◌, ◌<◌, length, IfOk};
ghost use Rattle.secret_stash.specs.Faults.{Gives};
ghost use Rattle.sealed_text.specs.OpeningSealed.{opened};
ghost use Rattle.stash_format.specs.Forms.{main_of};
ghost use Rattle.secret_stash.specs.Keys.{opened_main, main_or_fault, new_block};

use crate::bindings::block_extra;
use crate::fault::StashFault;
use ct_bytes::NoMemory;
use gcm_seal::{BadTag, open_in_place, seal_in_place};
use stash_format::{Block, Form};
use std::alloc::Global;

/// The main key of the block of an account's label.
pub(crate) fn open_block(
    alloc: Global,
    account: &str,
    label: &str,
    block: &Block,
    wrap: &[u8; 32],
) -> Result<[u8; 32], StashFault>
    requires account { length account.now < 256 }
    requires label { length label.now < 256 }
    ensures exact { Gives result (opened_main wrap.now account.now label.now block.now) }
{
    let extra = block_extra(alloc, block.form, account, label, block.edition)?;
    unwrapped(block, wrap, extra.as_slice())
}

// The main key of a block with this associated data.
#[tactic(auto, using(sealed_text::proofs::OpeningLemmas::opened_by_tag))]
fn unwrapped(block: &Block, wrap: &[u8; 32], extra: &[u8]) -> Result<[u8; 32], StashFault>
    requires { length extra.now < 1024 }
    ensures exact { Gives result (main_or_fault (opened wrap.now extra.now (main_of block.now))) }
{
    let mut main = block.text;
    match open_in_place(wrap, &block.iv, extra, &mut main, &block.tag) {
        Ok(()) => Ok(main),
        Err(BadTag) => Err(StashFault::BadTag),
    }
}

/// The block of an account's label: the main key under a wrap key.
pub(crate) fn seal_block(
    alloc: Global,
    account: &str,
    label: &str,
    edition: u64,
    wrap: &[u8; 32],
    main: &[u8; 32],
    iv: [u8; 12],
) -> Result<Block, NoMemory>
    requires account { length account.now < 256 }
    requires label { length label.now < 256 }
    ensures value { IfOk result (λ block. block ≡ new_block account.now label.now edition wrap.now main.now iv) }
{
    let extra = block_extra(alloc, Form::Bound, account, label, edition)?;
    let mut text = *main;
    let tag = seal_in_place(wrap, &iv, extra.as_slice(), &mut text);
    Ok(Block {
        edition,
        form: Form::Bound,
        iv,
        text,
        tag,
    })
}
