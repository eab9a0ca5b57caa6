//! Changes of a stash's contents.

ghost use Rattle.std.specs.Prelude.{◌≡◌, OnOk, OnErr, Some};
ghost use Rattle.secret_stash.specs.Edits.{with_block, without_block};

use ct_bytes::{NoMemory, Text};
use sealed_text::Sealed;
use stash_format::{Block, Contents};

/// Gives a label this block. After a refusal the contents are as they were.
pub(crate) fn put_block(contents: &mut Contents, label: Text, block: Block) -> Result<(), NoMemory>
    ensures ok { OnOk result (contents.new ≡ with_block contents.old label block) }
    ensures err { OnErr result (contents.new ≡ contents.old) }
{
    contents.blocks.insert(label, block)
}

/// Takes a label's block away.
pub(crate) fn take_block(contents: &mut Contents, label: &Text)
    ensures value { contents.new ≡ without_block contents.old label.now }
{
    contents.blocks.remove(label);
}

/// Sets the payload.
pub(crate) fn put_payload(contents: &mut Contents, sealed: Sealed)
    ensures value { contents.new ≡ record contents.old { payload = Some sealed } }
{
    contents.payload = Some(sealed);
}
