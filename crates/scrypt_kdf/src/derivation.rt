//! Keys from secrets.

ghost use Rattle.std.specs.Prelude.{◌≡◌, ◌≢◌, ◌*◌, ◌^◌, ◌≤◌, ◌↔◌, length, OnOk, OnErr, IfOk};
ghost use Rattle.scrypt_kdf.specs.Params.{IsAllowed};
ghost use Rattle.scrypt_kdf.specs.Scrypt.{scrypt};
ghost use Rattle.scrypt_kdf.specs.Derive.{derive};

use crate::blocks::mix_blocks;
use crate::{Params, ScryptFault};
use ct_bytes::NoMemory;
use hmac_sha::pbkdf2_one;
use std::alloc::Global;

/// The most bytes that p blocks of 128 r bytes have.
const MOST_BLOCK_BYTES: usize = 65_536;

/// scrypt of a password and a salt, into the whole of `out` (RFC 7914, section 6).
///
/// `n` is a power of two from 2 to 2^20 and below 2^(16 r), `r` is from 1 to 8, `p` from 1 to 64,
/// and `out` has 1 to 1,024 bytes. The call takes 128 r n bytes, once, before it begins.
///
/// The faults: `BadParams` where one of these bounds fails, which is tested first, and `NoMemory`.
/// After either, `out` is unchanged.
pub fn scrypt(
    alloc: Global,
    password: &[u8],
    salt: &[u8],
    params: Params,
    out: &mut [u8],
) -> Result<(), ScryptFault>
    ensures ok { OnOk result
        (out.new ≡ scrypt password.now salt.now params.n params.r params.p (length out.old)) }
    ensures err { OnErr result (out.new ≡ out.old) }

    // The parameters are refused exactly where they are outside their bounds.
    ensures bad_params { (result ≡ Err ScryptFault.BadParams)
        ↔ ¬ IsAllowed params (length out.old) }
    ensures allowed { result ≢ Err ScryptFault.BadParams → IsAllowed params (length out.old) }
{
    if !params.is_allowed(out.len()) {
        return Err(ScryptFault::BadParams);
    }
    let size = 128 * params.r as usize * params.p as usize;
    let mut blocks = [0u8; MOST_BLOCK_BYTES];
    scrypt_in(alloc, password, salt, params, &mut blocks[..size], out)?;
    Ok(())
}

/// The 64 bytes that are derived of a secret: scrypt with n = 2^cost, r = 8 and p = 1.
///
/// `cost` is from 1 to 16. The call takes 2^(10 + cost) bytes, once, before it begins.
pub fn derive(alloc: Global, secret: &[u8], salt: &[u8; 16], cost: u8) -> Result<[u8; 64], NoMemory>
    requires { (1 ≤ cost) × (cost ≤ 16) }
    ensures { IfOk result (λ key. key ≡ derive secret.now salt.now cost) }
{
    let params = Params {
        n: 1 << cost,
        r: 8,
        p: 1,
    };
    let mut blocks = [0u8; 1024];
    let mut key = [0u8; 64];
    scrypt_in(alloc, secret, salt, params, &mut blocks, &mut key)?;
    Ok(key)
}

// scrypt with parameters that are allowed, over a buffer for its p blocks.
fn scrypt_in(
    alloc: Global,
    password: &[u8],
    salt: &[u8],
    params: Params,
    blocks: &mut [u8],
    out: &mut [u8],
) -> Result<(), NoMemory>
    requires allowed { IsAllowed params (length out.old) }
    requires blocks { length blocks.old ≡ 128 * params.r * params.p }
    ensures ok { OnOk result
        (out.new ≡ scrypt password.now salt.now params.n params.r params.p (length out.old)) }
    ensures err { OnErr result (out.new ≡ out.old) }
{
    let r = params.r as usize;
    let n = params.n as usize;
    let mut rows: Vec<u32> = Vec::new(alloc);
    rows.try_reserve_exact(32 * r * n)?;
    pbkdf2_one(password, salt, blocks);
    mix_blocks(&mut rows, r, n, params.p as usize, blocks);
    pbkdf2_one(password, blocks, out);
    Ok(())
}
