//! Writing a leaf record.

ghost use Rattle.std.specs.Prelude.{◌≡◌, ◌<◌, ◌^◌, ◌++◌};
ghost use Rattle.aes_core.specs.Counter.{gctr};
ghost use Rattle.pw_leaf.specs.Contents.{contents_of, new_contents};
ghost use Rattle.pw_leaf.specs.LeafBytes.{leaf_bytes, leaf_text, open_part, secret_part, pairs_field};

use crate::fields::{MAC_AT, SECRETS_AT, VERSION};
use crate::keys::{ChipKeys, NewLeafSecrets};
use crate::leaf::{LEAF_BYTES, Leaf};
use aes_core::Aes256;
use ct_bytes::Writer;
use hmac_sha::mac;
use pw_path::Label;
use pw_types::{Schedule, Stamp};

/// The record of a new leaf, with no wrong try.
///
/// `iv` is the first counter block (SP 800-38A, 6.5) under which the secrets are hidden. No two records
/// of one chip should have it in common.
pub fn make(
    keys: &ChipKeys,
    label: Label,
    new: &NewLeafSecrets,
    schedule: &Schedule,
    iv: [u8; 16],
) -> [u8; LEAF_BYTES]
    ensures { result ≡ leaf_bytes keys.now (new_contents label new.now.les new.now.hes new.now.reset schedule.now iv) }
{
    let leaf = Leaf {
        label,
        schedule: *schedule,
        wrong: 0,
        last: Stamp { boot: 0, at: 0 },
        les: new.les,
        hes: new.hes,
        reset: new.reset,
        mac: [0; 32],
    };
    written(keys, &leaf, iv)
}

// The record of a leaf whose secrets are hidden under this block. The leaf's own MAC isn't read.
#[tactic(auto, unfolding(crate::specs::LeafBytes::leaf_bytes, crate::specs::LeafBytes::leaf_mac))]
pub(crate) fn written(keys: &ChipKeys, leaf: &Leaf, iv: [u8; 16]) -> [u8; LEAF_BYTES]
    ensures { result ≡ leaf_bytes keys.now (contents_of leaf.now iv) }
{
    let text = leaf_text(keys, leaf, iv);
    let signed = mac(&keys.mac, &text);
    let mut record = [0; LEAF_BYTES];
    let mut writer = Writer::new(&mut record);
    writer.put(&text).unwrap();
    writer.put(&signed).unwrap();
    record
}

// What the MAC is over.
#[tactic(auto, unfolding(crate::specs::LeafBytes::leaf_text))]
fn leaf_text(keys: &ChipKeys, leaf: &Leaf, iv: [u8; 16]) -> [u8; MAC_AT]
    ensures { result ≡ leaf_text keys.now (contents_of leaf.now iv) }
{
    let mut text = [0; MAC_AT];
    let mut writer = Writer::new(&mut text);
    writer.put(&open_part(leaf, iv)).unwrap();
    writer.put(&secret_part(keys, leaf, iv)).unwrap();
    text
}

#[tactic(auto, unfolding(crate::specs::LeafBytes::open_part))]
fn open_part(leaf: &Leaf, iv: [u8; 16]) -> [u8; SECRETS_AT]
    ensures { result ≡ open_part (contents_of leaf.now iv) }
{
    let mut part = [0; SECRETS_AT];
    let mut writer = Writer::new(&mut part);
    writer.put_u8(VERSION).unwrap();
    writer.put_u16(leaf.label.number()).unwrap();
    writer.put_u8(leaf.schedule.pairs().len() as u8).unwrap();
    writer.put(&pairs_field(&leaf.schedule)).unwrap();
    writer.put_u32(leaf.wrong).unwrap();
    writer.put_u64(leaf.last.boot).unwrap();
    writer.put_u64(leaf.last.at).unwrap();
    writer.put(&iv).unwrap();
    part
}

#[tactic(auto, unfolding(crate::specs::LeafBytes::secret_part))]
fn secret_part(keys: &ChipKeys, leaf: &Leaf, iv: [u8; 16]) -> [u8; 96]
    ensures { result ≡ secret_part keys.now (contents_of leaf.now iv) }
{
    let mut part = secrets(leaf);
    hide(keys, iv, &mut part);
    part
}

// The three secrets, one after another.
fn secrets(leaf: &Leaf) -> [u8; 96]
    ensures { result ≡ leaf.now.les ++ leaf.now.hes ++ leaf.now.reset }
{
    let mut part = [0; 96];
    let mut writer = Writer::new(&mut part);
    writer.put(&leaf.les).unwrap();
    writer.put(&leaf.hes).unwrap();
    writer.put(&leaf.reset).unwrap();
    part
}

// Hides three secrets, or shows hidden ones: the two are one.
pub(crate) fn hide(keys: &ChipKeys, iv: [u8; 16], secrets: &mut [u8; 96])
    ensures { secrets.new ≡ gctr 8 14 keys.now.enc iv secrets.old }
{
    Aes256::expand(&keys.enc).ctr_xor(iv, secrets);
}

fn pairs_field(schedule: &Schedule) -> [u8; 128]
    ensures { result ≡ pairs_field schedule.now }
{
    let mut field = [0; 128];
    let mut writer = Writer::new(&mut field);
    for (attempts, seconds) in schedule.pairs() {
        writer.put_u32(*attempts).unwrap();
        writer.put_u32(*seconds).unwrap();
    }
    field
}
