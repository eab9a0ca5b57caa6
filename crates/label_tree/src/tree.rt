//! The tree.

ghost use Rattle.std.specs.Prelude.{◌≡◌, ◌≤◌, IfOk};
ghost use Rattle.pw_path.specs.Tree.{root, aux_of, no_hash};
ghost use Rattle.label_tree.specs.Values.{value_in, with_value, IsLeastFree, used_below};

use crate::nodes::{NO_HASH, PLACES, ROOT, empty_all, least_free, renew, siblings, used_count};
use ct_bytes::NoMemory;
use pw_path::{Aux, Hash, Label, root_of};
use std::alloc::Global;
use std::marker::Model;

/// The tree over a value of 32 bytes for each of the 16,384 labels, seen as the list of these values.
///
/// A used label's value is its leaf's MAC, and that of a label that isn't used are 32 zero bytes. The
/// 5,461 nodes above the values are kept, so that the root and a label's siblings are read and a change
/// computes the seven nodes above its label. All memory, about 700,000 bytes, is taken by `new`.
#[derive(Drop)]
pub struct Tree {
    nodes: Vec<Hash>,
}

impl Model for Tree {
    ghost use Rattle.std.specs.Prelude.{ℕ, List, take};
    ghost use Rattle.label_tree.specs.Nodes.{IsKept};

    ghost Value = { List (List ℕ) };

    ghost view = { λ tree. take 16384 tree.nodes.items };

    ghost invariant = { λ tree. IsKept tree.nodes.items };
}

impl Tree {
    /// A tree in which no label is used.
    pub fn new(alloc: Global) -> Result<Tree, NoMemory>
        ensures { IfOk result (λ tree. value_in tree ≡ (λ _. no_hash)) }
    {
        let mut nodes = vec![in alloc; NO_HASH; PLACES]?;
        empty_all(&mut nodes);
        Ok(Tree { nodes })
    }

    /// The root, by the definition over all labels.
    pub fn root(&self) -> Hash
        ensures { result ≡ root (value_in self.now) }
    {
        self.nodes[ROOT]
    }

    /// The siblings on a label's path, from the bottom.
    pub fn aux(&self, label: Label) -> Aux
        ensures { result ≡ aux_of (value_in self.now) label }
    {
        siblings(&self.nodes, label)
    }

    /// The value of a label.
    pub fn at(&self, label: Label) -> Hash
        ensures { result ≡ value_in self.now label }
    {
        self.nodes[label.number() as usize]
    }

    /// The root that the tree has once a label has this value. The tree stays as it is.
    pub fn root_with(&self, label: Label, mac: &Hash) -> Hash
        ensures { result ≡ root (with_value (value_in self.now) label mac.now) }
    {
        root_of(label, mac, &siblings(&self.nodes, label))
    }

    /// Gives a label a value. Seven nodes are computed.
    pub fn set(&mut self, label: Label, mac: &Hash)
        ensures { value_in self.new ≡ with_value (value_in self.old) label mac.now }
    {
        renew(&mut self.nodes, label, mac);
    }

    /// Takes a label's value away: the label isn't used any more. Seven nodes are computed.
    pub fn take(&mut self, label: Label)
        ensures { value_in self.new ≡ with_value (value_in self.old) label no_hash }
    {
        renew(&mut self.nodes, label, &NO_HASH);
    }

    /// Takes all values away: no label is used any more.
    pub fn clear(&mut self)
        ensures { value_in self.new ≡ (λ _. no_hash) }
    {
        empty_all(&mut self.nodes);
    }

    /// The least label that isn't used, and `None` exactly where all are.
    pub fn free_label(&self) -> Option<Label>
        ensures { IsLeastFree (value_in self.now) result }
    {
        least_free(&self.nodes)
    }

    /// How many labels are used. It looks at each label.
    pub fn used(&self) -> usize
        ensures value { result ≡ used_below (value_in self.now) 16384 }
        ensures most { result ≤ 16384 }
    {
        used_count(&self.nodes)
    }
}
