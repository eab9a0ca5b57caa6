//! Reading a leaf record.

ghost use Rattle.std.specs.Prelude.{◌≡◌, ◌==◌, ◌≤◌, ◌*◌, ◌+◌, length, take, drop, is_some, IfOk, IfErr, IfSome, Ok, Err};
ghost use Rattle.std.specs.List.{list_all};
ghost use Rattle.pw_leaf.specs.Contents.{contents_of};
ghost use Rattle.pw_leaf.specs.Reading.{
  check_at,
  iv_in,
  leaf_at,
  look_at,
  mac_of,
  shaped,
  shape_fault,
  has_schedule,
  pairs_in,
  pairs_of,
  count_in,
  secrets_in,
};

use crate::fault::LeafFault;
use crate::fields::{
    BOOT_AT, COUNT_AT, IV_AT, LABEL_AT, MAC_AT, MOMENT_AT, PAIRS_AT, SECRETS_AT, VERSION, WRONG_AT,
    hash_at, u16_at, u32_at, u64_at,
};
use crate::keys::ChipKeys;
use crate::leaf::{LEAF_BYTES, Leaf, PublicLeaf};
use crate::write::hide;
use hmac_sha::mac;
use pw_path::{Hash, Label};
use pw_types::{LAST_MOMENT, MOST_PAIRS, Schedule, Stamp};

/// Reads a leaf.
///
/// The faults, in order: `BadLength` with the length, `BadVersion` with the version, `BadShape` with the
/// place of the first public field that breaks its rule, and `BadMac`.
pub fn check(keys: &ChipKeys, bytes: &[u8]) -> Result<Leaf, LeafFault>
    ensures value { result ≡ leaf_at keys.now bytes.now }
    ensures contents { IfOk result (λ leaf. check_at keys.now bytes.now ≡ Ok (contents_of leaf (iv_in bytes.now))) }
    ensures fault { IfErr result (λ fault. check_at keys.now bytes.now ≡ Err fault) }
{
    let shown = look(bytes)?;
    let (text, _) = bytes.split_at(MAC_AT);
    if shown.mac != mac(&keys.mac, text) {
        return Err(LeafFault::BadMac);
    }
    let secrets = secrets_in(keys, bytes);
    Ok(Leaf {
        label: shown.label,
        schedule: shown.schedule,
        wrong: shown.wrong,
        last: shown.last,
        les: hash_at(&secrets, 0),
        hes: hash_at(&secrets, 32),
        reset: hash_at(&secrets, 64),
        mac: shown.mac,
    })
}

/// Reads the public part of a leaf. Its MAC isn't tested.
///
/// The faults are those of `check`, without `BadMac`.
#[tactic(auto, unfolding(crate::specs::Reading::look_at))]
pub fn look(bytes: &[u8]) -> Result<PublicLeaf, LeafFault>
    ensures value { result ≡ look_at bytes.now }
    ensures size { IfOk result (λ _. length bytes.now ≡ 296) }
{
    if bytes.len() != LEAF_BYTES {
        return Err(LeafFault::BadLength(bytes.len()));
    }
    if bytes[0] != VERSION {
        return Err(LeafFault::BadVersion(bytes[0]));
    }
    shown(bytes)
}

/// The MAC of a record, which is its label's value in the tree.
pub fn mac_in(bytes: &[u8; LEAF_BYTES]) -> Hash
    ensures { result ≡ mac_of bytes.now }
{
    hash_at(bytes, MAC_AT)
}

// The public part of a record of 296 bytes.
#[tactic(auto, unfolding(crate::specs::Reading::shape_fault))]
fn shown(bytes: &[u8]) -> Result<PublicLeaf, LeafFault>
    requires { length bytes.now ≡ 296 }
    ensures { result ≡ shaped bytes.now (shape_fault bytes.now) }
{
    let Some(label) = Label::new(u16_at(bytes, LABEL_AT)) else {
        return Err(LeafFault::BadShape(LABEL_AT));
    };
    let count = bytes[COUNT_AT] as usize;
    if count == 0 || count > MOST_PAIRS {
        return Err(LeafFault::BadShape(COUNT_AT));
    }
    let Some(schedule) = schedule_in(bytes, count) else {
        return Err(LeafFault::BadShape(PAIRS_AT));
    };
    let wrong = u32_at(bytes, WRONG_AT);
    if wrong > schedule.limit() {
        return Err(LeafFault::BadShape(WRONG_AT));
    }
    let last = Stamp {
        boot: u64_at(bytes, BOOT_AT),
        at: u64_at(bytes, MOMENT_AT),
    };
    if wrong == 0 && last.boot > 0 {
        return Err(LeafFault::BadShape(BOOT_AT));
    }
    if last.at > LAST_MOMENT || (wrong == 0 && last.at > 0) {
        return Err(LeafFault::BadShape(MOMENT_AT));
    }
    let mac = hash_at(bytes, MAC_AT);
    Ok(PublicLeaf {
        label,
        schedule,
        wrong,
        last,
        mac,
    })
}

// The schedule of so many pairs, where they are one and the unused pairs are zero.
fn schedule_in(bytes: &[u8], count: usize) -> Option<Schedule>
    requires size { length bytes.now ≡ 296 }
    requires count { count ≡ count_in bytes.now }
    requires few { count ≤ 16 }
    ensures found { IfSome result (λ schedule. schedule ≡ pairs_in bytes.now) }
    ensures tested { is_some result ≡ has_schedule bytes.now }
{
    let pairs = pairs_of(bytes, count);
    let unused = &bytes[PAIRS_AT + 8 * count..WRONG_AT];
    if !are_zero(unused) {
        return None;
    }
    Schedule::new(&pairs[..count]).ok()
}

fn are_zero(bytes: &[u8]) -> bool
    ensures { result ≡ list_all (λ byte. byte == 0) bytes.now }
{
    bytes.iter().all(|byte| *byte == 0)
}

// The first pairs of the record, and zero pairs behind them.
fn pairs_of(bytes: &[u8], count: usize) -> [(u32, u32); MOST_PAIRS]
    requires size { length bytes.now ≡ 296 }
    requires few { count ≤ 16 }
    ensures { take count result ≡ pairs_of count (drop 4 bytes.now) }
{
    let mut pairs = [(0, 0); MOST_PAIRS];
    for index in 0..count {
        let at = PAIRS_AT + 8 * index;
        pairs[index] = (u32_at(bytes, at), u32_at(bytes, at + 4));
    }
    pairs
}

fn secrets_in(keys: &ChipKeys, bytes: &[u8]) -> [u8; 96]
    requires { length bytes.now ≡ 296 }
    ensures { result ≡ secrets_in keys.now bytes.now }
{
    let mut secrets = [0; 96];
    secrets.copy_from_slice(&bytes[SECRETS_AT..MAC_AT]);
    hide(keys, iv_in(bytes), &mut secrets);
    secrets
}

pub(crate) fn iv_in(bytes: &[u8]) -> [u8; 16]
    requires { length bytes.now ≡ 296 }
    ensures { result ≡ take 16 (drop 152 bytes.now) }
{
    let mut iv = [0; 16];
    iv.copy_from_slice(&bytes[IV_AT..SECRETS_AT]);
    iv
}
