//! Vault files that another program made.

use crate::made::{EMPTY_FILE, FILE, VAULT};
use home_names::is_account_name;
use std::alloc::Global;
use std::test;
use vault_crypt::{VaultFault, open_file, seal_file};

#[test]
fn files_open_under_their_name_alone(rt: HostRuntime) {
    let rows: [(&str, &str, bool); 4] = [
        ("ann", "a\0b", true),
        ("ann", "a", false),
        ("ann", "b", false),
        ("bob", "a\0b", false),
    ];
    for (account, name, opens) in rows {
        assert!(rt; is_account_name(account));
        assert!(rt; !name.is_empty() && name.len() <= 64);
        match open_file(rt.alloc(), &VAULT, account, name, &FILE) {
            Ok(bytes) => {
                assert!(rt; opens, "{name} of {account}");
                assert_eq!(rt; bytes.as_slice(), b"hello".as_slice());
            }
            Err(fault) => {
                assert!(rt; !opens, "{name} of {account}");
                assert_eq!(rt; fault, VaultFault::BadTag);
            }
        }
    }
}

#[test]
fn a_file_without_bytes_has_29(rt: HostRuntime) {
    let (account, name) = ("ann", "x");
    assert!(rt; is_account_name(account));
    assert!(rt; !name.is_empty() && name.len() <= 64);
    match open_file(rt.alloc(), &VAULT, account, name, &EMPTY_FILE) {
        Ok(bytes) => assert!(rt; bytes.as_slice().is_empty()),
        Err(fault) => panic!(rt; "it opens, but for {fault:?}"),
    }
}

// Cut behind so many bytes, the place of the fault.
#[test]
fn a_file_that_is_cut_is_named_by_the_field(rt: HostRuntime) {
    let (account, name) = ("ann", "x");
    assert!(rt; is_account_name(account));
    assert!(rt; !name.is_empty() && name.len() <= 64);
    for size in 0..29usize {
        let place = if size == 0 {
            0
        } else if size < 13 {
            1
        } else {
            13
        };
        let cut = &EMPTY_FILE[..size];
        match open_file(rt.alloc(), &VAULT, account, name, cut) {
            Ok(_) => panic!(rt; "{size} bytes are no record"),
            Err(fault) => assert_eq!(rt; fault, VaultFault::BadFile(place), "at {size} bytes"),
        }
    }
}

// A file of so many bytes has a record of so many, which opens to it.
fn check_size(alloc: Global, size: usize, total: usize) -> Result<(), test::Fail> {
    let (account, name) = ("ann", "x");
    let bytes = vec![in alloc; 7u8; size]?;
    if !is_account_name(account) || name.is_empty() || name.len() > 64 || bytes.len() > 49_152 {
        return Err(test::Fail::new("the names and the size are allowed"));
    }
    let record = seal_file(alloc, &VAULT, account, name, [9; 12], &bytes)?;
    let opened = open_file(alloc, &VAULT, account, name, record.as_slice())?;
    if record.as_slice().len() != total || opened.as_slice() != bytes.as_slice() {
        return Err(test::Fail::new(format_args!("{size} bytes")));
    }
    Ok(())
}

#[test]
fn the_empty_and_the_largest_file_have_29_and_49_181_bytes(
    rt: HostRuntime,
) -> Result<(), test::Fail> {
    check_size(rt.alloc(), 0, 29)?;
    check_size(rt.alloc(), 49_152, 49_181)
}

#[test]
fn a_record_of_one_byte_more_is_none(rt: HostRuntime) -> Result<(), test::Fail> {
    let (account, name) = ("ann", "x");
    assert!(rt; is_account_name(account));
    assert!(rt; !name.is_empty() && name.len() <= 64);
    let record = vec![in rt.alloc(); 1u8; 49_182]?;
    match open_file(rt.alloc(), &VAULT, account, name, &record) {
        Ok(_) => return Err(test::Fail::new("it is no record")),
        Err(fault) => assert_eq!(rt; fault, VaultFault::BadFile(49_181)),
    }
    Ok(())
}
