//! What no contract says.
use link_chain::{Chain, Link};
use std::test::Fail;

#[test]
fn a_link_and_the_order_are_got_with_ample_memory(rt: HostRuntime) -> Result<(), Fail> {
    let Ok(mut one) = Link::new(rt.alloc(), 1u64) else {
        panic!(rt; "no memory for the first link")
    };
    *one.entry_mut() = 7;
    assert!(rt; *one.entry() == 7);
    let Ok(two) = Link::new(rt.alloc(), 2u64) else {
        panic!(rt; "no memory for the second link")
    };
    let chain = Chain::empty().hang(one).hang(two);
    let Ok(entries) = chain.in_order(rt.alloc()) else {
        panic!(rt; "no memory for the order")
    };
    assert!(rt; entries.len() == 2 && *entries[0] == 7 && *entries[1] == 2);
    Ok(())
}

#[test]
fn a_long_chain_is_dropped(rt: HostRuntime) -> Result<(), Fail> {
    let mut chain = Chain::empty();
    for number in 0..100_000u32 {
        let Ok(link) = Link::new(rt.alloc(), number) else {
            panic!(rt; "no memory for a link")
        };
        chain = chain.hang(link);
    }
    Ok(())
}
