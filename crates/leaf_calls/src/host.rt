//! What a host keeps of its chip.

use label_tree::Tree;
use pw_chip::Words;
use pw_path::Label;

/// A chip's words and the tree of its leaves, as the last call left them whose writes were done.
#[derive(Drop)]
pub struct ChipHost {
    pub words: Words,
    pub tree: Tree,
}

/// A leaf's label, and the name of its record.
#[derive(Clone, Copy)]
pub struct LeafPlace<'a> {
    pub label: Label,
    pub name: &'a str,
}
