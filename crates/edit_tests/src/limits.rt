//! The largest homes: 32 factors, 256 vault files, and the largest file.

use crate::edits::{Bench, Edit, VAULT, file_text, home_after, make, put_bytes, takes_factor};
use crate::records::{Outcome, Record, ann, read};
use crate::shown::home_text;
use home_recovery::recover;
use std::alloc::Global;
use std::test;
use vault_crypt::open_file;

// A home with one password.
fn small_home(alloc: Global) -> Result<Bench, test::Fail> {
    home_after(alloc, &[Edit::Create, Edit::AddFirst("f0", 0)], &[])
}

// What is loaded, or why it can't be: how many factors and vault files.
fn loaded_text(alloc: Global, bench: &mut Bench) -> Result<String, test::Fail> {
    match recover(alloc, ann(), &mut bench.share, 0) {
        Ok(stored) => Ok(format!(in alloc;
            "{} factors, {} files",
            stored.factors.len(),
            stored.files.len()
        )?),
        Err(fault) => crate::edits::fault_text(alloc, &fault),
    }
}

// So much is loaded.
fn check_loaded(alloc: Global, bench: &mut Bench, want: &str) -> Outcome {
    let text = loaded_text(alloc, bench)?;
    if text.as_str() != want {
        return Err(test::Fail::new(format_args!("{text} and not {want}")));
    }
    Ok(())
}

// Adds the factors `f1` to `f31`.
fn add_factors(alloc: Global, bench: &mut Bench) -> Outcome {
    for byte in 1..32u8 {
        let label = format!(in alloc; "f{byte}")?;
        make(alloc, bench, Edit::Add(label.as_str(), byte))?;
    }
    Ok(())
}

// Each factor from `f0` on opens under its own key.
fn check_factors(alloc: Global, text: &str) -> Outcome {
    for byte in 0..32u8 {
        let factor = format!(in alloc; ", f{byte} {} by {byte}", byte.wrapping_add(1))?;
        if !text.contains(factor.as_str()) {
            return Err(test::Fail::new(factor.as_str()));
        }
    }
    Ok(())
}

// Adds factors up to the bound, and another in the place of one.
fn check_most_factors(alloc: Global, bench: &mut Bench) -> Outcome {
    add_factors(alloc, bench)?;
    check_loaded(alloc, bench, "32 factors, 0 files")?;
    check_factors(alloc, home_text(alloc, &mut bench.share)?.as_str())?;
    if takes_factor(&bench.stored) {
        return Err(test::Fail::new("it takes one more"));
    }
    make(alloc, bench, Edit::Remove("f5"))?;
    make(alloc, bench, Edit::Add("more", 32))?;
    check_loaded(alloc, bench, "32 factors, 0 files")
}

#[test]
fn a_home_has_32_factors_and_each_opens(rt: HostRuntime) -> Outcome {
    let mut bench = small_home(rt.alloc())?;
    check_most_factors(rt.alloc(), &mut bench)
}

// Puts 256 files, whose texts are their names.
fn put_files(alloc: Global, bench: &mut Bench) -> Outcome {
    for number in 0..256u32 {
        let name = format!(in alloc; "file {number}")?;
        make(alloc, bench, Edit::PutFile(name.as_str(), name.as_str()))?;
    }
    Ok(())
}

// Each file's text is its name.
fn check_files(alloc: Global, bench: &mut Bench) -> Outcome {
    for number in 0..256u32 {
        let name = format!(in alloc; "file {number}")?;
        let text = file_text(alloc, &mut bench.share, name.as_str())?;
        if text.as_str() != name.as_str() {
            return Err(test::Fail::new(name.as_str()));
        }
    }
    Ok(())
}

// Puts files up to the bound, one of them anew, and then one more.
fn check_most_files(alloc: Global, bench: &mut Bench) -> Outcome {
    put_files(alloc, bench)?;
    check_files(alloc, bench)?;
    let rows = [
        ("file 7", "1 factors, 256 files"),
        ("one more", "ann.stash is damaged"),
    ];
    check_loaded(alloc, bench, "1 factors, 256 files")?;
    for (name, want) in rows {
        make(alloc, bench, Edit::PutFile(name, "again"))?;
        check_loaded(alloc, bench, want)?;
    }
    Ok(())
}

#[test]
fn a_home_has_256_files_and_each_has_its_bytes(rt: HostRuntime) -> Outcome {
    let mut bench = small_home(rt.alloc())?;
    check_most_files(rt.alloc(), &mut bench)
}

// The record of the large file opens to these bytes.
fn check_large(alloc: Global, record: &[u8], bytes: &[u8]) -> Outcome {
    let plain = open_file(alloc, &VAULT, ann(), "large", record)?;
    if record.len() != 49_181 || plain.as_slice() != bytes {
        return Err(test::Fail::new("the file has other bytes"));
    }
    Ok(())
}

// Puts a file with these bytes, and reads its record.
fn check_put(alloc: Global, bench: &mut Bench, bytes: &[u8]) -> Outcome {
    if put_bytes(alloc, bench, "large", bytes)?.is_err() {
        return Err(test::Fail::new("the file isn't put"));
    }
    match read(alloc, &mut bench.share, Record::File("large"))? {
        Some(record) => check_large(alloc, record.as_slice(), bytes),
        None => Err(test::Fail::new("the file isn't there")),
    }
}

#[test]
fn the_largest_file_is_read_back(rt: HostRuntime) -> Outcome {
    let bytes = vec![in rt.alloc(); 5u8; 49_152]?;
    let mut bench = small_home(rt.alloc())?;
    check_put(rt.alloc(), &mut bench, bytes.as_slice())
}
