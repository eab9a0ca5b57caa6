//! The stash of an account, as its record is read.

ghost use Rattle.std.specs.Prelude.{◌≡◌, ◌≤◌, IsOk, IsErrOf, IfOk, IfErr, IfSome, IsTrue, Some, ◌&&◌, nat_le, bytes_eq};
ghost use Rattle.record_names.specs.Names.{is_account_name, stash_name};
ghost use Rattle.stash_format.specs.Sizes.{text_size};
ghost use Rattle.stash_format.specs.Kept.{HasRows, HasBoth};
ghost use Rattle.stored_home.specs.declared.fault.StoreFault.{StoreFault};
ghost use Rattle.home_recovery.specs.Damage.{IsBadStash};
ghost use Rattle.stored_home.specs.Coherent.{IsOwnStash};
ghost use Rattle.home_recovery.specs.Parts.{ReadsStash, ReadsFound, TellsStash, Serves};
ghost use Rattle.home_recovery.specs.Reading.{Reads};
ghost use Rattle.home_recovery.specs.Told.{IsLoadFault};

use crate::read::find_bytes;
use ct_bytes::Blob;
use secret_stash::{Stash, StashFault};
use share_api::{RecordName, Share};
use std::alloc::Global;
use stored_home::StoreFault;

/// The most bytes of a payload.
const MOST_PAYLOAD: usize = 945;

// Whether the stash is the account's, with a payload that is no longer than one of the grammar.
fn is_own(account: &str, stash: &Stash) -> bool
    ensures { result ≡ (bytes_eq stash.now.account account.now && nat_le (text_size stash.now.payload) 945) }
{
    stash.account() == account && stash.payload_size() <= MOST_PAYLOAD
}

// The stash, where it is the account's.
fn own_stash(account: &str, stash: Stash) -> Result<Stash, StoreFault>
    requires { IsTrue (is_account_name account.now) }
    ensures own { IfOk result (λ own. (own ≡ stash) × IsOwnStash account.now stash) }
    ensures other { IfErr result (λ fault. (fault ≡ StoreFault.Damaged (stash_name account.now)) × IsBadStash account.now (Some stash)) }
{
    if is_own(account, &stash) {
        Ok(stash)
    } else {
        Err(StoreFault::Damaged(RecordName::stash(account)))
    }
}

// The stash of a record's bytes.
fn parse_stash(alloc: Global, account: &str, bytes: &[u8]) -> Result<Stash, StoreFault>
    requires { IsTrue (is_account_name account.now) }
    ensures reads { ReadsStash account.now bytes.now result }
    ensures rows { IfOk result (λ stash. HasRows stash.next stash.blocks) }
    ensures both { IfOk result HasBoth }
{
    match Stash::read(alloc, bytes) {
        Ok(stash) => own_stash(account, stash),
        Err(StashFault::NoMemory) => Err(StoreFault::NoMemory),
        Err(_) => Err(StoreFault::Damaged(RecordName::stash(account))),
    }
}

// The stash of the record that was found, and `None` where there is no record.
fn parse_found(
    alloc: Global,
    account: &str,
    found: Option<Blob>,
) -> Result<Option<Stash>, StoreFault>
    requires { IsTrue (is_account_name account.now) }
    ensures reads { ReadsFound account.now found result }
    ensures rows { IfOk result (λ stash. IfSome stash (λ s. HasRows s.next s.blocks)) }
    ensures both { IfOk result (λ stash. IfSome stash HasBoth) }
{
    match found {
        Some(bytes) => Ok(Some(parse_stash(alloc, account, bytes.as_slice())?)),
        None => Ok(None),
    }
}

/// The account's stash, and `None` where it has none.
pub(crate) fn read_stash<S: Share>(
    alloc: Global,
    account: &str,
    share: &mut S,
) -> Result<Option<Stash>, StoreFault>
    requires spare { 1 ≤ (S.seen share.old).spare }
    requires serves { Serves account.now (S.seen share.old) }
    ensures read { Reads (S.seen share.old) (S.seen share.new) (IsOk result) (IsErrOf result StoreFault.Failed) 1
        (TellsStash account.now result) }
    ensures own { IfOk result (λ stash. IfSome stash (IsOwnStash account.now)) }
    ensures rows { IfOk result (λ stash. IfSome stash (λ s. HasRows s.next s.blocks)) }
    ensures both { IfOk result (λ stash. IfSome stash HasBoth) }
    ensures only { IfErr result IsLoadFault }
    ensures goes { S.goes share.old share.new }
{
    let name = RecordName::stash(account);
    let found = find_bytes(alloc, share, &name)?;
    parse_found(alloc, account, found)
}
