//! How many accounts and names a cabinet opens with, and the largest record.

use crate::support::{MOST, Opened, Outcome, RECORD_BYTES, accounts_found, board_of};
use cabinet::CabinetFault;
use ct_bytes::{Blob, Text};
use mem_board::MemBoard;
use std::alloc::Global;
use std::test;

// A board with the stashes of so many accounts.
fn accounts_board(alloc: Global, count: usize) -> Result<MemBoard, test::Fail> {
    let mut files = Vec::new(alloc);
    for at in 0..count {
        let name = format!(in alloc; "a{at}.stash")?;
        let file = (
            Text::from_str(alloc, name.as_str())?,
            Blob::from_slice(alloc, b"")?,
        );
        files.push(file)?;
    }
    Ok(MemBoard::new(alloc, files, [0; 256], Vec::new(alloc))?)
}

#[test]
fn sixty_four_accounts_are_found_and_sixty_five_are_too_many(rt: HostRuntime) -> Outcome {
    let alloc = rt.alloc();
    let many = CabinetFault::TooMany {
        accounts: 65,
        names: 65,
    };
    assert_eq!(rt;
        accounts_found(alloc, accounts_board(alloc, 64)?, MOST),
        Ok(64)
    );
    assert_eq!(rt;
        accounts_found(alloc, accounts_board(alloc, 65)?, MOST),
        Err(many)
    );
    Ok(())
}

#[test]
fn more_names_than_there_is_room_for_are_too_many(rt: HostRuntime) -> Outcome {
    let alloc = rt.alloc();
    let many = CabinetFault::TooMany {
        accounts: 3,
        names: 3,
    };
    assert_eq!(rt; accounts_found(alloc, accounts_board(alloc, 3)?, 3), Ok(3));
    assert_eq!(rt;
        accounts_found(alloc, accounts_board(alloc, 3)?, 2),
        Err(many)
    );
    Ok(())
}

// A record of so many bytes is read again.
fn check_size(alloc: Global, size: usize) -> Outcome {
    let bytes = vec![in alloc; 7u8; size]?;
    let mut opened = Opened::over(alloc, board_of(alloc, &[], &[])?)?;
    opened.put("ann.stash", &bytes)?;
    match opened.get(alloc, "ann.stash")? {
        Some(found) if found.as_slice() == bytes.as_slice() => Ok(()),
        _ => Err(test::Fail::new(format_args!("{size} bytes"))),
    }
}

#[test]
fn the_largest_record_comes_back_whole(rt: HostRuntime) -> Outcome {
    for size in [0, 1, RECORD_BYTES] {
        check_size(rt.alloc(), size)?;
    }
    Ok(())
}

#[test]
fn of_a_file_that_is_too_long_one_byte_more_is_read(rt: HostRuntime) -> Outcome {
    let alloc = rt.alloc();
    let mut files = Vec::new(alloc);
    let bytes = vec![in alloc; 7u8; 50_000]?;
    files.push((
        Text::from_str(alloc, "ann.stash")?,
        Blob::from_slice(alloc, &bytes)?,
    ))?;
    let board = MemBoard::new(alloc, files, [0; 256], Vec::new(alloc))?;
    match Opened::over(alloc, board)?.get(alloc, "ann.stash")? {
        Some(found) => assert_eq!(rt; found.as_slice().len(), RECORD_BYTES + 1),
        None => return Err(test::Fail::new("the record is there")),
    }
    Ok(())
}
