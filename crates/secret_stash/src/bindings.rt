//! The associated data of blocks and payloads.

ghost use Rattle.std.specs.Prelude.{◌≡◌, ◌<◌, ◌∷◌, ◌++◌, [], length, IfOk};
ghost use Rattle.std.specs.Int.{w64, to_be_bytes};
ghost use Rattle.stash_format.specs.Forms.{extra_by};
ghost use Rattle.secret_stash.specs.Keys.{payload_extra};

use ct_bytes::{Blob, NoMemory};
use stash_format::Form;
use std::alloc::Global;

/// What a block of a form is bound to.
pub(crate) fn block_extra(
    alloc: Global,
    form: Form,
    account: &str,
    label: &str,
    edition: u64,
) -> Result<Blob, NoMemory>
    requires account { length account.now < 256 }
    requires label { length label.now < 256 }
    ensures value { IfOk result (λ extra. extra ≡ extra_by form account.now label.now edition) }
    ensures size { IfOk result (λ extra. length extra < 1024) }
{
    let extra = Blob::from_slice(alloc, b"block")?;
    match form {
        Form::Plain => Ok(extra),
        Form::Bound => bound(extra, account, label, edition),
    }
}

// Account, label and edition behind what was there.
fn bound(mut extra: Blob, account: &str, label: &str, edition: u64) -> Result<Blob, NoMemory>
    ensures value { IfOk result (λ whole. whole
        ≡ extra ++ account.now ++ (0 ∷ []) ++ label.now ++ (0 ∷ []) ++ to_be_bytes w64 edition) }
{
    extra.push_slice(account.as_bytes())?;
    extra.push_slice(&[0])?;
    extra.push_slice(label.as_bytes())?;
    extra.push_slice(&[0])?;
    extra.push_slice(&edition.to_be_bytes())?;
    Ok(extra)
}

/// What a payload is bound to.
pub(crate) fn payload_extra(alloc: Global, account: &str) -> Result<Blob, NoMemory>
    requires { length account.now < 256 }
    ensures value { IfOk result (λ extra. extra ≡ payload_extra account.now) }
    ensures size { IfOk result (λ extra. length extra < 1024) }
{
    let mut extra = Blob::from_slice(alloc, b"stash")?;
    extra.push_slice(account.as_bytes())?;
    Ok(extra)
}
