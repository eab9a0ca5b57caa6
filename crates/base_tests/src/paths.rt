//! Labels and roots, against values that another program computed.

use pw_path::{Aux, Hash, Label, empty_roots, root_of};

// Where a label is there its root is computed; a number that is no label gives zero bytes.
fn root_at(number: u16, leaf: &Hash, aux: &Aux) -> Hash {
    match Label::new(number) {
        Some(label) => root_of(label, leaf, aux),
        None => [0; 32],
    }
}

#[test]
fn labels_end_below_16384(rt: HostRuntime) {
    for (number, found) in [(0, true), (16_383, true), (16_384, false), (65_535, false)] {
        assert!(rt; Label::new(number).is_some() == found, "number {number}");
    }
    assert!(rt; Label::new(16_383).map(|last| last.number()) == Some(16_383));
}

#[rattlefmt::skip]
const EMPTY: [(usize, Hash); 3] = [
    (1, [
        184, 65, 71, 176, 238, 185, 151, 208, 148, 46, 33, 76, 224, 60, 120, 137,
        229, 101, 63, 39, 104, 48, 131, 139, 145, 226, 223, 234, 149, 40, 212, 109,
    ]),
    (2, [
        119, 39, 69, 9, 166, 110, 104, 173, 244, 89, 93, 138, 73, 139, 141, 170,
        40, 112, 236, 200, 178, 250, 151, 232, 25, 55, 34, 51, 171, 11, 242, 162,
    ]),
    (7, [
        215, 109, 228, 162, 226, 1, 173, 82, 28, 142, 7, 129, 221, 7, 185, 65,
        7, 28, 1, 254, 227, 21, 103, 120, 139, 122, 94, 134, 250, 79, 33, 90,
    ]),
];

#[test]
fn the_empty_roots_are_those_of_another_program(rt: HostRuntime) {
    let roots = empty_roots();
    assert!(rt; roots[0] == [0; 32]);
    for (level, root) in EMPTY {
        assert!(rt; roots[level] == root, "level {level}");
    }
}

#[test]
fn an_empty_label_among_empty_siblings_has_the_empty_root(rt: HostRuntime) {
    let roots = empty_roots();
    let mut aux: Aux = [[[0; 32]; 3]; 7];
    for level in 0..7usize {
        aux[level] = [roots[level], roots[level], roots[level]];
    }
    for number in [0, 1, 6_957, 16_383] {
        assert!(rt;
            root_at(number, &[0; 32], &aux) == roots[7],
            "label {number}"
        );
    }
}

// The leaf value has bytes 255, and sibling k on level l has bytes 16 l + k.
#[rattlefmt::skip]
const ROOTS: [(u16, Hash); 4] = [
    (0, [
        36, 121, 193, 191, 71, 35, 130, 90, 56, 249, 109, 174, 249, 251, 64, 69,
        83, 94, 155, 159, 33, 224, 178, 91, 62, 167, 24, 139, 140, 135, 251, 164,
    ]),
    (1, [
        130, 196, 70, 210, 175, 240, 138, 158, 141, 145, 175, 13, 239, 171, 196, 131,
        234, 151, 154, 5, 115, 62, 157, 188, 27, 180, 87, 128, 111, 228, 7, 70,
    ]),
    (6957, [
        33, 119, 66, 189, 54, 128, 1, 236, 110, 189, 65, 121, 4, 254, 236, 213,
        53, 111, 6, 160, 209, 185, 83, 34, 98, 138, 109, 0, 61, 205, 151, 90,
    ]),
    (16383, [
        103, 31, 208, 175, 236, 19, 47, 129, 63, 9, 55, 50, 187, 166, 225, 225,
        37, 189, 231, 140, 18, 215, 82, 66, 11, 177, 166, 10, 245, 80, 24, 13,
    ]),
];

#[test]
fn a_path_has_the_root_of_another_program(rt: HostRuntime) {
    let mut aux: Aux = [[[0; 32]; 3]; 7];
    for level in 0..7u8 {
        let first = 16 * (level + 1);
        aux[level as usize] = [[first; 32], [first + 1; 32], [first + 2; 32]];
    }
    for (number, root) in ROOTS {
        assert!(rt; root_at(number, &[255; 32], &aux) == root, "label {number}");
    }
}
