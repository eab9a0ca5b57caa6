//! Building the tree of the records.

ghost use Rattle.std.specs.Prelude.{◌≡◌, ℕ, ◌<◌, ◌≤◌, None};
ghost use Rattle.leaf_table.specs.Rows.{row_in};
ghost use Rattle.label_tree.specs.Values.{value_in};
ghost use Rattle.chip_replay.specs.Records.{values_of, with_value_where};

use label_tree::Tree;
use leaf_table::LeafTable;
use pw_leaf::mac_in;
use pw_path::{LABELS, Label};

/// Gives each label of the tree the MAC of its record, and none to a label without one. Takes no memory.
pub fn build(tree: &mut Tree, leaves: &LeafTable)
    ensures { value_in tree.new ≡ values_of (row_in leaves.now) }
{
    tree.clear();
    for number in 0..LABELS {
        build_label(tree, leaves, number);
    }
}

// Gives one label the MAC of its record.
fn build_label(tree: &mut Tree, leaves: &LeafTable, number: u16)
    requires { number < 16384 }
    ensures value { value_in tree.new ≡ with_value_where (value_in tree.old) number (row_in leaves.now number) }
    ensures past { (i : ℕ) → 16384 ≤ i → row_in leaves.now i ≡ None }
{
    let Some(label) = Label::new(number) else {
        unreachable!();
    };
    if let Some(bytes) = leaves.get(label) {
        tree.set(label, &mac_in(bytes));
    }
}
