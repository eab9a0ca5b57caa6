//! Many turns of two clients at one account.

use crate::homes::{Served, made_home, serve_two};
use crate::lines::{MOUNT, PUT_ONE, PUT_TWO, START, TRY_MAIN};
use crate::sign::{Sign, Signs};
use crate::source::Line;
use mem_board::MemBoard;
use std::alloc::Global;
use std::test::Fail;
use turn_secrets::PlainKdf;

// How many entries of ann's book are a client's, and whether the places of those with steps rise.
fn entries_of(
    alloc: Global,
    served: &Served<'_, MemBoard>,
    client: u32,
) -> Result<(usize, bool), Fail> {
    let Some(book) = served.left.books.get(0) else {
        return Err(Fail::new("no book is left"));
    };
    let mut count = 0usize;
    let mut place = 0;
    let mut rises = true;
    for entry in book.in_order(alloc)? {
        if entry.client == client {
            count = count.saturating_add(1);
        }
        if entry.place > 0 {
            rises = rises && entry.place > place;
            place = entry.place;
        }
    }
    Ok((count, rises))
}

// Two clients put a file a hundred times each, on threads: all turns are entries of the account's book, in the order
// of their device steps. The password before takes a look, an act, and a clearing that finds no PIN.
#[test]
fn two_clients_make_a_hundred_turns_each(rt: HostRuntime) -> Result<(), Fail> {
    let alloc = rt.alloc();
    let board = made_home(&rt, alloc)?;
    let signs = Signs::new();
    let mut first = [(None, PUT_ONE, None); 103];
    first[0] = (None, START, None);
    first[1] = (None, TRY_MAIN, None);
    first[2] = (None, MOUNT, Some(Sign::Ready));
    let mut second = [(None, PUT_TWO, None); 100];
    second[0] = (Some(Sign::Ready), PUT_TWO, None);
    let served = serve_two(&rt, alloc, board, &signs, &first, &second, PlainKdf)?;
    assert_eq!(rt; entries_of(alloc, &served, 0)?, (105, true));
    assert_eq!(rt; entries_of(alloc, &served, 1)?, (100, true));
    Ok(())
}
