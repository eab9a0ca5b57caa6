//! The root that a path gives.

ghost use Rattle.std.specs.Prelude.{◌≡◌, ℕ, ◌+◌, ◌<◌, [], length, slice_index_or};
ghost use Rattle.sha2.specs.Sha256.{sha256};
ghost use Rattle.pw_path.specs.Tree.{node_at, node_input, no_hash};
ghost use Rattle.pw_path.specs.Path.{root_of, put_at};

use crate::label::Label;
use sha2::{Digest, Sha256};

/// The bytes of a hash.
pub type Hash = [u8; 32];

/// The siblings on a label's path, from the bottom: three at each level, in rising order of index.
pub type Aux = [[Hash; 3]; 7];

/// There are so many levels above the leaf values.
pub const LEVELS: usize = 7;

/// The root that a label's leaf value and the siblings on its path give.
///
/// A node of level 1 to 7 is SHA-256 of its level as one byte and its four children, in order of label.
/// Level 0 has the leaf values.
pub fn root_of(label: Label, leaf: &Hash, aux: &Aux) -> Hash
    ensures { result ≡ root_of label leaf.now aux.now }
{
    let mut hash = *leaf;
    let mut index = label.number();
    for level in 0..LEVELS {
        let above = node(level as u8 + 1, (index % 4) as usize, &hash, &aux[level]);
        hash = above;
        index /= 4;
    }
    hash
}

/// For each level its node over labels that are all empty. Level 0 has 32 zero bytes.
pub fn empty_roots() -> [Hash; 8]
    ensures { (level : ℕ) → level < 8 → slice_index_or result level [] ≡ node_at (λ _. no_hash) level 0 }
{
    let mut roots = [[0; 32]; 8];
    for level in 0..LEVELS {
        let below = roots[level];
        let above = node(level as u8 + 1, 0, &below, &[below, below, below]);
        roots[level + 1] = above;
    }
    roots
}

// The node of a level over a child, which is at an index among its siblings.
fn node(level: u8, index: usize, child: &Hash, siblings: &[Hash; 3]) -> Hash
    requires { index < 4 }
    ensures { result ≡ sha256 (node_input level (put_at index child.now siblings.now)) }
{
    let mut hasher = Sha256::new();
    hasher.update([level].as_slice());
    for before in &siblings[..index] {
        hasher.update(before.as_slice());
    }
    hasher.update(child.as_slice());
    for after in &siblings[index..] {
        hasher.update(after.as_slice());
    }
    hasher.finalize()
}
