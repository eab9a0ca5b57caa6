//! Which accounts a platform opens with.

use crate::support::{NAMED, Outcome, board_of, first_board, opened, shown};
use platform_core::Platform;
use std::test;

#[test]
fn named_accounts_come_first_and_found_ones_after_them(rt: HostRuntime) -> Outcome {
    let alloc = rt.alloc();
    let files = [("dee.stash", "found"), ("ann.stash", "named")];
    let mut platform = opened(alloc, board_of(alloc, &files, &[])?)?;
    let accounts = platform.accounts();
    assert_eq!(rt; accounts.len(), 4);
    for (number, name) in NAMED.iter().enumerate() {
        assert!(rt;
            accounts
                .get(number)
                .is_some_and(|found| found.as_str() == *name)
        );
    }
    assert_eq!(rt;
        shown(alloc, &mut platform, 0)?.as_str(),
        "ann.stash=named "
    );
    assert_eq!(rt;
        shown(alloc, &mut platform, 3)?.as_str(),
        "dee.stash=found "
    );
    Ok(())
}

#[test]
fn a_leafs_record_makes_an_account_and_is_none_of_its_records(rt: HostRuntime) -> Outcome {
    let alloc = rt.alloc();
    let board = first_board(alloc, &[])?;
    let Ok(mut platform) = Platform::begin(alloc, board, Vec::new(alloc)) else {
        return Err(test::Fail::new("the platform opens"));
    };
    assert_eq!(rt; platform.accounts().len(), 1);
    assert!(rt;
        platform
            .accounts()
            .get(0)
            .is_some_and(|name| name.as_str() == "bob")
    );
    assert_eq!(rt; shown(alloc, &mut platform, 0)?.as_str(), "");
    Ok(())
}
