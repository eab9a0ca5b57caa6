//! Changing an opened leaf.

ghost use Rattle.std.specs.Prelude.{◌≡◌, ◌<◌, ◌^◌, Ok};
ghost use Rattle.pw_types.specs.Schedule.{limit_of};
ghost use Rattle.pw_log.specs.declared.entry.TheConstants.{TRY, WRONG};
ghost use Rattle.pw_leaf.specs.Contents.{bumped, cleared};
ghost use Rattle.pw_leaf.specs.LeafBytes.{leaf_bytes};
ghost use Rattle.pw_leaf.specs.Reading.{check_at};
ghost use Rattle.pw_chip.specs.Step.{logged, leaf_entry};
ghost use Rattle.pw_chip.specs.Held.{held, entry_of, CanNote};

use crate::open::Opened;
use crate::words::Words;
use pw_leaf::{LEAF_BYTES, bump, clear, mac_in};
use pw_log::{LogEntry, TRY, WRONG};
use pw_path::{Aux, Label, root_of};
use pw_types::Stamp;

// Notes a call that leaves this record at the label.
pub(crate) fn note_leaf(
    words: &mut Words,
    operation: u8,
    verdict: u8,
    label: Label,
    aux: &Aux,
    leaf: &[u8; LEAF_BYTES],
    now: u64,
)
    requires { CanNote operation verdict now }
    ensures { words.new ≡ logged words.old (entry_of words.old operation verdict label aux.now leaf.now now) }
{
    let mac = mac_in(leaf);
    let boot = words.era().boot;
    words.note(LogEntry {
        operation,
        label: label.number(),
        root: root_of(label, &mac, aux),
        mac,
        verdict,
        stamp: Stamp { boot, at: now },
    });
}

// The record of an opened leaf without wrong tries, noted at its label.
pub(crate) fn note_cleared(
    words: &mut Words,
    operation: u8,
    verdict: u8,
    aux: &Aux,
    opened: &Opened,
    now: u64,
) -> [u8; LEAF_BYTES]
    requires checked { check_at words.old.keys opened.now.bytes ≡ Ok (held opened.now) }
    requires entry { CanNote operation verdict now }
    ensures leaf { result ≡ leaf_bytes words.old.keys (cleared (held opened.now)) }
    ensures after { words.new ≡ logged words.old (leaf_entry words.old.keys operation verdict opened.now.leaf.label aux.now
        (cleared (held opened.now)) (record { boot = words.old.boot; at = now })) }
{
    let leaf = clear(words.keys(), &opened.bytes);
    note_leaf(
        words,
        operation,
        verdict,
        opened.leaf.label,
        aux,
        &leaf,
        now,
    );
    leaf
}

// The record of an opened leaf with one more wrong try, noted at its label.
pub(crate) fn note_bumped(
    words: &mut Words,
    aux: &Aux,
    opened: &Opened,
    now: u64,
) -> [u8; LEAF_BYTES]
    requires checked { check_at words.old.keys opened.now.bytes ≡ Ok (held opened.now) }
    requires room { opened.now.leaf.wrong < limit_of opened.now.leaf.schedule }
    requires moment { now < 2 ^ 40 }
    ensures leaf { result ≡ leaf_bytes words.old.keys (bumped (record { boot = words.old.boot; at = now }) (held opened.now)) }
    ensures after { words.new ≡ logged words.old (leaf_entry words.old.keys TRY WRONG opened.now.leaf.label aux.now
        (bumped (record { boot = words.old.boot; at = now }) (held opened.now))
        (record { boot = words.old.boot; at = now })) }
{
    let boot = words.era().boot;
    let leaf = bump(words.keys(), &opened.bytes, Stamp { boot, at: now });
    note_leaf(words, TRY, WRONG, opened.leaf.label, aux, &leaf, now);
    leaf
}
