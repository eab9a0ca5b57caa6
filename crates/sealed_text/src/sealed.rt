//! A text sealed under a key.

ghost use Rattle.std.specs.Prelude.{◌≡◌, ◌-◌, ◌^◌, ◌<◌, length, IfOk};
ghost use Rattle.sealed_text.specs.Opening.{Gives, opened_parts};

use crate::fault::OpenFault;
use ct_bytes::{Blob, NoMemory};
use gcm_seal::{BadTag, open_in_place, seal_in_place};
use std::alloc::Global;

/// A text sealed by AES-256-GCM (SP 800-38D, 7.1).
#[derive(Debug, Drop)]
pub struct Sealed {
    /// The IV, which is used once under a key.
    pub iv: [u8; 12],
    /// The ciphertext, as long as the text.
    pub text: Blob,
    /// The tag of the associated data and the ciphertext.
    pub tag: [u8; 16],
}

// A copy of bytes that is to be changed in place.
fn copied(alloc: Global, bytes: &[u8]) -> Result<Vec<u8>, NoMemory>
    ensures value { IfOk result (λ copy. copy.items ≡ bytes.now) }
{
    Ok(bytes.to_vec(alloc)?)
}

impl Sealed {
    ghost use Rattle.sealed_text.specs.Sealing.{sealed_under};
    ghost use Rattle.sealed_text.specs.OpeningSealed.{opened};

    /// The text sealed under a key, with associated data. No two texts may be sealed under one key
    /// and IV.
    pub fn seal(
        alloc: Global,
        key: &[u8; 32],
        iv: [u8; 12],
        extra: &[u8],
        plain: &[u8],
    ) -> Result<Sealed, NoMemory>
        requires extra { length extra.now < 2 ^ 61 }
        requires plain { length plain.now < 2 ^ 36 - 32 }
        ensures value { IfOk result (λ sealed. sealed ≡ sealed_under key.now iv extra.now plain.now) }
    {
        let mut text = copied(alloc, plain)?;
        let tag = seal_in_place(key, &iv, extra, &mut text);
        let text = Blob::from_slice(alloc, &text)?;
        Ok(Sealed { iv, text, tag })
    }

    /// The text, where key and associated data are those of the tag.
    pub fn open(&self, alloc: Global, key: &[u8; 32], extra: &[u8]) -> Result<Blob, OpenFault>
        requires extra { length extra.now < 2 ^ 61 }
        requires text { length self.now.text < 2 ^ 36 - 32 }
        ensures exact { Gives result (opened key.now extra.now self.now) }
    {
        open_parts(alloc, key, &self.iv, extra, self.text.as_slice(), &self.tag)
    }

    /// An equal one.
    pub fn copy(&self) -> Result<Sealed, NoMemory>
        ensures value { IfOk result (λ sealed. sealed ≡ self.now) }
    {
        Ok(Sealed {
            iv: self.iv,
            text: self.text.copy()?,
            tag: self.tag,
        })
    }
}

/// The text of a ciphertext, where key, IV, associated data and ciphertext are those of the tag.
pub fn open_parts(
    alloc: Global,
    key: &[u8; 32],
    iv: &[u8; 12],
    extra: &[u8],
    text: &[u8],
    tag: &[u8; 16],
) -> Result<Blob, OpenFault>
    requires extra { length extra.now < 2 ^ 61 }
    requires text { length text.now < 2 ^ 36 - 32 }
    ensures exact { Gives result (opened_parts key.now iv.now extra.now text.now tag.now) }
{
    let mut copy = copied(alloc, text)?;
    open_in(alloc, key, iv, extra, &mut copy, tag)
}

// The text of a ciphertext, which is opened where it stands and copied.
#[tactic(auto, using(crate::proofs::OpeningLemmas::opened_by_tag))]
fn open_in(
    alloc: Global,
    key: &[u8; 32],
    iv: &[u8; 12],
    extra: &[u8],
    buf: &mut [u8],
    tag: &[u8; 16],
) -> Result<Blob, OpenFault>
    requires extra { length extra.now < 2 ^ 61 }
    requires text { length buf.old < 2 ^ 36 - 32 }
    ensures exact { Gives result (opened_parts key.now iv.now extra.now buf.old tag.now) }
{
    match open_in_place(key, iv, extra, buf, tag) {
        Ok(()) => Ok(Blob::from_slice(alloc, buf)?),
        Err(BadTag) => Err(OpenFault::BadTag),
    }
}
