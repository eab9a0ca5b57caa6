//! The board over a real directory.

use crate::support::Outcome;
use board_model::{Board, FileBoard};
use std::os::unix::fs::{self as unix, PermissionsExt};
use std::{fs, test};

#[test]
fn only_regular_files_are_listed(rt: HostRuntime) -> Outcome {
    let alloc = rt.alloc();
    let Ok(mut board) = FileBoard::open(rt, alloc, "names") else {
        return Err(test::Fail::new("the directory can't be made"));
    };
    for name in ["names/b", "names/a"] {
        fs::write(&rt, name, b"".as_slice())?;
    }
    fs::create_dir(&rt, "names/folder")?;
    let names = board.list(alloc)?;
    assert_eq!(rt; names.len(), 2);
    for (name, want) in names.iter().zip(["a", "b"]) {
        assert_eq!(rt; name.as_str(), want);
    }
    Ok(())
}

#[test]
fn a_words_file_of_another_length_fails(rt: HostRuntime) -> Outcome {
    let alloc = rt.alloc();
    let Ok(mut board) = FileBoard::open(rt, alloc, "chips") else {
        return Err(test::Fail::new("the directory can't be made"));
    };
    for length in [0, 255, 257] {
        let bytes = [0u8; 257];
        fs::write(&rt, "chips.chip/words", &bytes[..length])?;
        assert!(rt; board.nv_load().is_err(), "{length} bytes");
    }
    board.nv_store(&[1; 256])?;
    assert_eq!(rt; board.nv_load()?, [1; 256]);
    fs::remove_file(&rt, "chips.chip/words")?;
    fs::create_dir(&rt, "chips.chip/words")?;
    assert!(rt; board.nv_load().is_err());
    Ok(())
}

#[test]
fn a_directory_that_cannot_be_made_is_a_fault(rt: HostRuntime) -> Outcome {
    let alloc = rt.alloc();
    fs::write(&rt, "file", b"".as_slice())?;
    fs::write(&rt, "chipless.chip", b"".as_slice())?;
    for dir in ["file", "file/state", "chipless", "", "/", "//"] {
        assert!(rt; FileBoard::open(rt, alloc, dir).is_err(), "{dir}");
    }
    Ok(())
}

#[test]
fn a_second_board_over_a_directory_is_refused(rt: HostRuntime) -> Outcome {
    let alloc = rt.alloc();
    fs::create_dir(&rt, "state")?;
    unix::symlink(&rt, "state", "link")?;
    // However the directory is named, it has one chip, beside it.
    for dir in ["state", "state/", "state/.", "link", "link/../state"] {
        let first = FileBoard::open(rt, alloc, dir);
        assert!(rt; first.is_ok(), "{dir}");
        for again in ["state", "link/."] {
            assert!(rt;
                FileBoard::open(rt, alloc, again).is_err(),
                "{dir}, {again}"
            );
        }
    }
    assert!(rt; fs::exists(&rt, "state.chip")?);
    assert!(rt; !fs::exists(&rt, "link.chip")?);
    assert!(rt; !fs::exists(&rt, "state/.chip")?);
    Ok(())
}

#[test]
fn what_is_made_is_its_owners_alone(rt: HostRuntime) -> Outcome {
    let alloc = rt.alloc();
    let Ok(mut board) = FileBoard::open(rt, alloc, "above/state") else {
        return Err(test::Fail::new("the directory can't be made"));
    };
    board.write_temp("tmp-a", b"entire")?;
    board.nv_store(&[1; 256])?;
    let made = [
        ("above", 0o700),
        ("above/state", 0o700),
        ("above/state.chip", 0o700),
        ("above/state/tmp-a", 0o600),
        ("above/state.chip/words", 0o600),
    ];
    for (path, mode) in made {
        let found = fs::metadata(&rt, path)?.permissions().mode() & 0o777;
        assert_eq!(rt; found, mode, "{path}");
    }
    Ok(())
}

#[test]
fn nothing_is_written_or_read_through_a_link(rt: HostRuntime) -> Outcome {
    let alloc = rt.alloc();
    let Ok(mut board) = FileBoard::open(rt, alloc, "links") else {
        return Err(test::Fail::new("the directory can't be made"));
    };
    fs::write(&rt, "target", b"old".as_slice())?;
    unix::symlink(&rt, "../target", "links/tmp-a")?;
    fs::hard_link(&rt, "target", "links/tmp-b")?;
    unix::symlink(&rt, "../target", "links.chip/tmp-words")?;
    unix::symlink(&rt, "../target", "links/a")?;
    assert!(rt; board.read(alloc, "a", 100).is_err());
    for name in ["tmp-a", "tmp-b"] {
        board.write_temp(name, b"new")?;
    }
    board.nv_store(&[1; 256])?;
    assert_eq!(rt; fs::read(&rt, "target")?.as_slice(), b"old".as_slice());
    Ok(())
}
