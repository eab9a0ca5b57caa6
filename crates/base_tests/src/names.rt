//! The grammar of account names at its edges.

use home_names::is_account_name;

#[test]
fn account_names_are_short_and_plain(rt: HostRuntime) {
    for (name, wanted) in [
        ("", false),
        ("a", true),
        ("ann", true),
        ("0", true),
        ("z9", true),
        ("Ann", false),
        ("an n", false),
        ("ann.", false),
        ("a`", false),
        ("a{", false),
        ("a/", false),
        ("a:", false),
        ("né", false),
        ("aaaaaaaaaaaaaaaaaaaaaaaaaaaaaaaa", true),
        ("aaaaaaaaaaaaaaaaaaaaaaaaaaaaaaaaa", false),
    ] {
        assert!(rt; is_account_name(name) == wanted, "at {name}");
    }
}
