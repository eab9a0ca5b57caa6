//! What can be measured, by its name on the command line.

use ct_bytes::NoMemory;
use label_tree::Tree;
use pw_path::{Hash, LABELS, Label};
use sha2::{Digest, Sha256};
use std::alloc::Global;

/// Some work that can be measured.
#[derive(Clone, Copy, Debug, PartialEq, Eq)]
pub enum Work {
    /// Changes of labels in one tree.
    Edits,
    /// SHA-256 of as many bytes as a node has: its level and four children.
    Hashes,
    /// A new tree with used labels.
    Opening,
}

impl Work {
    /// The work of a name.
    pub fn named(name: &str) -> Option<Work> {
        if name == "edits" {
            Some(Work::Edits)
        } else if name == "hashes" {
            Some(Work::Hashes)
        } else if name == "opening" {
            Some(Work::Opening)
        } else {
            None
        }
    }
}

/// Gives labels spread over the tree another value, so many times.
pub fn edit_each(tree: &mut Tree, count: u32) {
    for turn in 0..count {
        let number = (turn % 127 * 129) as u16;
        if let Some(label) = Label::new(number % LABELS) {
            let mut mac = [0; 32];
            mac[..4].copy_from_slice(&turn.to_be_bytes());
            tree.set(label, &mac);
        }
    }
}

/// Hashes a node's 129 bytes, so many times, over the hash before.
pub fn hash_each(count: u32) {
    let mut hash: Hash = [0; 32];
    for _ in 0..count {
        let mut hasher = Sha256::new();
        hasher.update([1].as_slice());
        for _ in 0..4 {
            hasher.update(hash.as_slice());
        }
        hash = hasher.finalize();
    }
}

/// Makes a tree and uses so many of its labels, the first ones.
pub fn open_with(alloc: Global, count: u32) -> Result<(), NoMemory> {
    let mut tree = Tree::new(alloc)?;
    for turn in 0..count {
        if let Some(label) = Label::new((turn % 16_384) as u16) {
            tree.set(label, &[1; 32]);
        }
    }
    Ok(())
}
