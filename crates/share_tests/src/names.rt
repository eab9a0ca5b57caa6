//! Names of records at each edge of their grammar.

use record_names::RecordName;

// An account has 1 to 32 of `a` to `z` and `0` to `9`. A text, and whether it is a name.
#[rattlefmt::skip]
const STASHES: [(&str, bool); 16] = [
    ("ann.stash", true),
    ("0.stash", true),
    ("aaaaaaaaaaaaaaaaaaaaaaaaaaaaaaaa.stash", true),
    ("aaaaaaaaaaaaaaaaaaaaaaaaaaaaaaaaa.stash", false),
    ("", false),
    (".stash", false),
    ("ann", false),
    ("ann.", false),
    ("ann.stash.", false),
    ("ann.stash ", false),
    ("ann.stashes", false),
    ("ann.Stash", false),
    ("Ann.stash", false),
    ("a-n.stash", false),
    ("\u{e9}.stash", false),
    ("tmp-ann.stash", false),
];

// A label has 1 to 16 of these, and an edition is a number below 2^64 without leading zeros. A text, and
// whether it is a name.
#[rattlefmt::skip]
const FACTORS: [(&str, bool); 14] = [
    ("ann.fac.main.0", true),
    ("ann.fac.main.10", true),
    ("ann.fac.main.18446744073709551615", true),
    ("ann.fac.main.18446744073709551616", false),
    ("ann.fac.main.00", false),
    ("ann.fac.main.01", false),
    ("ann.fac.main.+1", false),
    ("ann.fac.main.", false),
    ("ann.fac.main", false),
    ("ann.fac.main.1.1", false),
    ("ann.fac..1", false),
    ("ann.fac.Main.1", false),
    ("ann.fac.mmmmmmmmmmmmmmmm.1", true),
    ("ann.fac.mmmmmmmmmmmmmmmmm.1", false),
];

// A leaf's label is below 16,384 and has five digits. A text, and whether it is a name.
#[rattlefmt::skip]
const LEAVES: [(&str, bool); 9] = [
    ("ann.leaf.00000", true),
    ("ann.leaf.16383", true),
    ("ann.leaf.16384", false),
    ("ann.leaf.99999", false),
    ("ann.leaf.0", false),
    ("ann.leaf.0000", false),
    ("ann.leaf.000000", false),
    ("ann.leaf.0000a", false),
    ("ann.leaf.-0001", false),
];

// A file's name has 1 to 64 bytes of UTF-8, in lower-case hex. A text, and whether it is a name.
#[rattlefmt::skip]
const FILES: [(&str, bool); 14] = [
    ("ann.file.61", true),
    ("ann.file.00", true),
    ("ann.file.c3a9", true),
    ("ann.file.616161616161616161616161616161616161616161616161616161616161616161616161616161616\
16161616161616161616161616161616161616161616161", true),
    ("ann.file.616161616161616161616161616161616161616161616161616161616161616161616161616161616\
1616161616161616161616161616161616161616161616161", false),
    ("ann.file.", false),
    ("ann.file.6", false),
    ("ann.file.616", false),
    ("ann.file.6g", false),
    ("ann.file.C3A9", false),
    ("ann.file.c3A9", false),
    ("ann.file.c3", false),
    ("ann.file.ff", false),
    ("ann.file.eda080", false),
];

// The first text that isn't read as the table says.
fn first_wrong(rows: &[(&'static str, bool)]) -> Option<&'static str> {
    for (text, is_name) in rows {
        let read = match RecordName::read(text) {
            Some(name) => name.as_str() == *text,
            None => false,
        };
        if read != *is_name {
            return Some(text);
        }
    }
    None
}

#[test]
fn a_text_at_an_edge_is_a_name_or_foreign(rt: HostRuntime) {
    assert_eq!(rt; first_wrong(&STASHES), None);
    assert_eq!(rt; first_wrong(&FACTORS), None);
    assert_eq!(rt; first_wrong(&LEAVES), None);
    assert_eq!(rt; first_wrong(&FILES), None);
}
