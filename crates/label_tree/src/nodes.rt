//! The hashes of a tree in one list: a value for each label, then the inner nodes, the lowest level first.
//!
//! The children of inner node k stand from place 4 k on, and above place p is inner node p / 4.

ghost use Rattle.std.specs.Prelude.{◌≡◌, ℕ, ◌+◌, ◌*◌, ◌/◌, ◌%◌, ◌<◌, ◌≤◌, length};
ghost use Rattle.sha2.specs.Sha256.{sha256};
ghost use Rattle.pw_path.specs.Tree.{node_input, others, no_hash};
ghost use Rattle.label_tree.specs.Values.{value_in, with_value, IsLeastFree, used_below};
ghost use Rattle.label_tree.specs.Nodes.{level_of, four, IsKept, rows_at};

use pw_path::{Aux, Hash, LEVELS, Label, empty_roots};
use sha2::{Digest, Sha256};

/// The place of the first inner node, behind the labels' values.
const INNER: usize = 16_384;

/// The place of the root.
pub(crate) const ROOT: usize = 21_844;

/// There are so many values and inner nodes.
pub(crate) const PLACES: usize = 21_845;

/// The value of a label that isn't used.
pub const NO_HASH: Hash = [0; 32];

// Makes the nodes those of a tree in which no label is used.
pub(crate) fn empty_all(nodes: &mut [Hash])
    requires { length nodes.old ≡ 21845 }
    ensures kept { IsKept nodes.new }
    ensures empty { (label : ℕ) → label < 16384 → value_in nodes.new label ≡ no_hash }
{
    let roots = empty_roots();
    for label in 0..INNER {
        nodes[label] = NO_HASH;
    }
    for place in INNER..PLACES {
        nodes[place] = roots[level_of(place - INNER) as usize];
    }
}

// Gives a label a value, and renews the seven nodes above it.
pub(crate) fn renew(nodes: &mut [Hash], label: Label, mac: &Hash)
    requires { IsKept nodes.old }
    ensures label { label < 16384 }
    ensures kept { IsKept nodes.new }
    ensures values { (i : ℕ) → i < 16384
        → value_in nodes.new i ≡ with_value (value_in nodes.old) label mac.now i }
{
    let mut place = label.number() as usize;
    nodes[place] = *mac;
    while place < ROOT {
        let above = place / 4;
        let hash = node(level_of(above), nodes, 4 * above);
        place = INNER + above;
        nodes[place] = hash;
    }
}

// The siblings on the way up from a label.
pub(crate) fn siblings(nodes: &[Hash], label: Label) -> Aux
    requires { length nodes.now ≡ 21845 }
    ensures rows { result ≡ rows_at nodes.now label 7 }
    ensures label { label < 16384 }
{
    let mut rows = [[NO_HASH; 3]; LEVELS];
    let mut place = label.number() as usize;
    for level in 0..LEVELS {
        let row = row_at(nodes, place);
        rows[level] = row;
        place = INNER + place / 4;
    }
    rows
}

// The least label that isn't used.
pub(crate) fn least_free(nodes: &[Hash]) -> Option<Label>
    requires { length nodes.now ≡ 21845 }
    ensures { IsLeastFree (value_in nodes.now) result }
{
    for label in 0..INNER {
        if nodes[label] == NO_HASH {
            return Label::new(label as u16);
        }
    }
    None
}

// How many labels are used.
pub(crate) fn used_count(nodes: &[Hash]) -> usize
    requires { length nodes.now ≡ 21845 }
    ensures value { result ≡ used_below (value_in nodes.now) 16384 }
    ensures most { result ≤ 16384 }
{
    let mut count = 0;
    for number in 0..INNER {
        if nodes[number] != NO_HASH {
            count += 1;
        }
    }
    count
}

// The siblings of a place below the root.
fn row_at(nodes: &[Hash], place: usize) -> [Hash; 3]
    requires size { length nodes.now ≡ 21845 }
    requires below_root { place < 21844 }
    ensures { result ≡ others (place % 4) (four nodes.now (4 * (place / 4))) }
{
    let first = 4 * (place / 4);
    let a = nodes[first];
    let b = nodes[first + 1];
    let c = nodes[first + 2];
    let d = nodes[first + 3];
    match place % 4 {
        0 => [b, c, d],
        1 => [a, c, d],
        2 => [a, b, d],
        _ => [a, b, c],
    }
}

// The level of an inner node, which is from 1 to 7.
fn level_of(node: usize) -> u8
    ensures value { result ≡ level_of node }
    ensures most { result ≤ 7 }
{
    if node < 4_096 {
        1
    } else if node < 5_120 {
        2
    } else if node < 5_376 {
        3
    } else if node < 5_440 {
        4
    } else if node < 5_456 {
        5
    } else if node < 5_460 {
        6
    } else {
        7
    }
}

// The node of a level over the four hashes from a place on.
fn node(level: u8, nodes: &[Hash], first: usize) -> Hash
    requires { first + 4 ≤ length nodes.now }
    ensures { result ≡ sha256 (node_input level (four nodes.now first)) }
{
    let mut hasher = Sha256::new();
    hasher.update([level].as_slice());
    hasher.update(nodes[first].as_slice());
    hasher.update(nodes[first + 1].as_slice());
    hasher.update(nodes[first + 2].as_slice());
    hasher.update(nodes[first + 3].as_slice());
    hasher.finalize()
}
