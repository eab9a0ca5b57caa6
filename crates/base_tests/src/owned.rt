//! Owned bytes and text: each call once, with ample memory.

use ct_bytes::{Blob, NoMemory, Text};
use std::alloc::Global;

// Whether two bytes and a third are the three, and a copy of them the same.
fn is_grown_and_copied(alloc: Global) -> Result<bool, NoMemory> {
    let mut blob = Blob::from_slice(alloc, b"ab")?;
    blob.push_slice(b"c")?;
    let copy = blob.copy()?;
    Ok(copy.as_slice() == b"abc".as_slice() && copy == blob)
}

#[test]
fn a_blob_grows_and_is_copied(rt: HostRuntime) {
    assert!(rt; is_grown_and_copied(rt.alloc()) == Ok(true));
}

// Whether the first text stands before the other, and a copy of it is the same text.
fn are_ordered(alloc: Global, one: &str, other: &str) -> Result<bool, NoMemory> {
    let less = Text::from_str(alloc, one)?;
    let greater = Text::from_str(alloc, other)?;
    let copy = less.copy()?;
    Ok(copy.as_str() == one && less < greater && copy == less && less != greater)
}

#[test]
fn texts_are_ordered_by_their_bytes(rt: HostRuntime) {
    for (one, other) in [
        ("an", "ann"),
        ("ann", "bob"),
        ("ann.2", "ann.a"),
        ("z", "é"),
    ] {
        let ordered = are_ordered(rt.alloc(), one, other);
        assert!(rt; ordered == Ok(true), "{one} stands before {other}");
    }
}
