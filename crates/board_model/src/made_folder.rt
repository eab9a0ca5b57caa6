//! Directories that are made where they are absent.

use std::fs::{DirBuilder, OpenFile, Permissions};
use std::io::ErrorKind;
use std::os::unix::fs::{DirBuilderExt, PermissionsExt};
use std::rt::Files;
use std::{fs, io};

/// The mode of a directory that is made: its owner's alone.
const PRIVATE_FOLDER: u32 = 0o700;

// The directory in which the last name of a path stands. The path has no slash at its end.
fn parent_of(path: &str) -> &str {
    match path.rsplit_once('/') {
        Some((parent, _)) => { if parent.is_empty() { "/" } else { parent } }
        None => ".",
    }
}

fn sync_parent(files: &impl Files, path: &str) -> io::Result<()> {
    fs::open(files, parent_of(path))?.sync_all()
}

fn is_folder(files: &impl Files, path: &str) -> bool {
    match fs::metadata(files, path) {
        Ok(metadata) => metadata.is_dir(),
        Err(_) => false,
    }
}

// Makes a directory where it is absent. One that was made lasts, since its parent is synced.
fn make_folder(files: &impl Files, path: &str) -> io::Result<()> {
    let mut builder = DirBuilder::new();
    builder.mode(PRIVATE_FOLDER);
    match builder.create(files, path) {
        Ok(()) => {
            // The mode that the system gave it may lack bits.
            fs::set_permissions(files, path, Permissions::from_mode(PRIVATE_FOLDER))?;
            sync_parent(files, path)
        }
        Err(error) => {
            if is_folder(files, path) {
                Ok(())
            } else {
                Err(error)
            }
        }
    }
}

/// Makes a directory, and those above it, where they are absent. Those that were made last.
pub fn make_folders(files: &impl Files, path: &str) -> io::Result<()> {
    match make_folder(files, path) {
        Err(error) if error.kind() == ErrorKind::NotFound => {}
        made => return made,
    }
    for end in 1..path.len() {
        if let Some((above, rest)) = path.split_at_checked(end) {
            if rest.starts_with('/') {
                make_folder(files, above)?;
            }
        }
    }
    make_folder(files, path)
}

/// Syncs the parent of a directory that may have been made just before a crash.
///
/// A parent that this user may not read is left alone: what stands in it was made by another.
pub fn sync_found(files: &impl Files, path: &str) -> io::Result<()> {
    match sync_parent(files, path) {
        Err(error) if error.kind() == ErrorKind::PermissionDenied => Ok(()),
        synced => synced,
    }
}
