//! The tree, against roots of another program and against the roots of its paths.

use label_tree::Tree;
use pw_path::{Hash, LEVELS, Label, empty_roots, root_of};
use std::test::Fail;

/// The label of an edit, the byte that its new value repeats, none where it is taken, and the root after it.
type Edit = (u16, Option<u8>, Hash);

#[rattlefmt::skip]
const EDITS: [Edit; 6] = [
    (0, Some(1), [
        121, 189, 216, 156, 45, 228, 157, 197, 237, 229, 57, 237, 33, 211, 245, 100,
        214, 7, 27, 53, 95, 23, 226, 11, 243, 62, 135, 106, 17, 151, 151, 141,
    ]),
    (1, Some(2), [
        28, 186, 218, 36, 182, 142, 182, 102, 88, 123, 116, 219, 54, 185, 156, 75,
        178, 215, 64, 3, 217, 211, 200, 102, 100, 81, 139, 39, 180, 58, 249, 161,
    ]),
    (4_095, Some(3), [
        29, 84, 249, 246, 221, 186, 234, 109, 60, 158, 254, 190, 200, 22, 241, 154,
        8, 222, 233, 90, 27, 90, 176, 99, 94, 16, 214, 234, 210, 121, 173, 6,
    ]),
    (16_383, Some(4), [
        172, 8, 124, 126, 30, 208, 159, 152, 252, 63, 33, 96, 243, 101, 253, 206,
        105, 211, 65, 198, 31, 109, 214, 204, 132, 60, 174, 114, 214, 96, 40, 68,
    ]),
    (6_957, Some(5), [
        102, 181, 228, 182, 169, 19, 202, 30, 153, 145, 245, 153, 255, 217, 12, 138,
        200, 215, 89, 88, 204, 50, 17, 40, 194, 146, 20, 37, 84, 72, 228, 10,
    ]),
    (1, None, [
        79, 39, 193, 199, 201, 121, 220, 200, 28, 17, 26, 4, 91, 228, 254, 84,
        150, 41, 231, 116, 156, 85, 210, 245, 93, 234, 56, 223, 110, 49, 97, 212,
    ]),
];

// Gives a label a value, or takes it away.
fn edit(tree: &mut Tree, number: u16, mac: Option<Hash>) {
    let Some(label) = Label::new(number) else {
        return;
    };
    match mac {
        Some(mac) => tree.set(label, &mac),
        None => tree.take(label),
    }
}

#[test]
fn a_new_tree_has_the_empty_root_and_a_cleared_one_too(rt: HostRuntime) -> Result<(), Fail> {
    let mut tree = Tree::new(rt.alloc()).ok().ok_or("no memory")?;
    assert_eq!(rt; tree.root(), empty_roots()[LEVELS]);
    edit(&mut tree, 16_383, Some([1; 32]));
    tree.clear();
    assert_eq!(rt; tree.root(), empty_roots()[LEVELS]);
    Ok(())
}

#[test]
fn each_edit_gives_the_root_of_another_program(rt: HostRuntime) -> Result<(), Fail> {
    let mut tree = Tree::new(rt.alloc()).ok().ok_or("no memory")?;
    for (number, byte, root) in EDITS {
        edit(&mut tree, number, byte.map(|b| [b; 32]));
        assert_eq!(rt; tree.root(), root, "label {number}");
    }
    assert_eq!(rt; tree.free_label(), Label::new(1));
    Ok(())
}

/// The labels at which the long test edits.
const LABELS: [u16; 4] = [0, 1, 4_095, 16_383];

// Whether the paths of the four labels give the root.
fn paths_give_root(tree: &Tree) -> bool {
    LABELS.iter().filter_map(|number| Label::new(*number)).all(|label| root_of(
        label,
        &tree.at(label),
        &tree.aux(label),
    ) == tree.root())
}

#[test]
fn fifty_thousand_edits_keep_every_path(rt: HostRuntime) -> Result<(), Fail> {
    let mut tree = Tree::new(rt.alloc()).ok().ok_or("no memory")?;
    for turn in 0..50_000u32 {
        let mut mac: Hash = [0; 32];
        mac[..4].copy_from_slice(&turn.to_be_bytes());
        let mac = if turn % 9 == 0 { None } else { Some(mac) };
        edit(&mut tree, LABELS[(turn % 4) as usize], mac);
        assert!(rt; paths_give_root(&tree), "turn {turn}");
    }
    Ok(())
}

#[test]
fn a_full_tree_has_no_free_label(rt: HostRuntime) -> Result<(), Fail> {
    let mut tree = Tree::new(rt.alloc()).ok().ok_or("no memory")?;
    for number in 0..pw_path::LABELS {
        if number % 1_024 == 0 {
            assert_eq!(rt; tree.free_label(), Label::new(number));
        }
        edit(&mut tree, number, Some([1; 32]));
    }
    assert_eq!(rt; tree.free_label(), None);
    Ok(())
}
