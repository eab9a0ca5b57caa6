//! Files that can be locked.

use std::fs::File;
use std::io;

/// An open file or directory that one holder at a time can lock, for as long as it is open.
pub trait LockFile {
    /// Takes the exclusive lock. Where another holder has it, it fails and doesn't wait.
    fn try_lock(&self) -> io::Result<()>;
}

impl LockFile for File {
    fn try_lock(&self) -> io::Result<()> {
        match File::try_lock(self) {
            Ok(()) => Ok(()),
            Err(error) => Err(io::Error::from(error)),
        }
    }
}
