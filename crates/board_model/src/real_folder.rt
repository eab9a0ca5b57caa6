//! A real directory and the chip's directory beside it.

ghost use Rattle.std.specs.Prelude.{IfOk, IsSorted};
ghost use Rattle.std.specs.Ordering.{nat_cmp};
ghost use Rattle.std.specs.Cmp.Lexicographic.{slice_cmp};

use crate::lock_file::LockFile;
use crate::made_folder::{make_folders, sync_found};
use ct_bytes::{NoMemory, Text};
use std::alloc::{AllocError, Global};
use std::fs::{OpenFile, OpenOptions, Permissions};
use std::io::{ErrorKind, Read, Write};
use std::os::unix::fs::{OpenOptionsExt, PermissionsExt};
use std::rt::Files;
use std::{fs, io};

/// The chip's file, and the temporary file that replaces it.
const WORDS: &str = "words";

const NEW_WORDS: &str = "tmp-words";

/// What the name of the chip's directory has more than the other's.
const CHIP_END: &str = ".chip";

/// How much room a path has after its directory: a slash and the longest file name.
const NAME_ROOM: usize = 256;

/// The mode of a file that is made: its owner's alone.
const PRIVATE_FILE: u32 = 0o600;

/// An open directory and its path.
#[derive(Drop)]
struct OpenFolder<F> {
    path: String,
    file: F,
}

/// A directory, the chip's directory beside it, and room for paths. The chip's directory is locked for
/// as long as this is there.
///
/// The file that was written last stays open until it is synced.
#[derive(Drop)]
pub struct RealFolder<R, F> {
    rt: R,
    files: OpenFolder<F>,
    chip: OpenFolder<F>,
    path: String,
    target: String,
    written: Option<F>,
    written_path: String,
}

// The directory without slashes at its end. One of slashes alone is the root.
fn without_slashes(dir: &str) -> &str {
    let folder = dir.trim_end_matches('/');
    if folder.is_empty() && !dir.is_empty() {
        "/"
    } else {
        folder
    }
}

// The path of the chip's directory, which lies beside the other. None can lie beside the root.
fn chip_path(alloc: Global, folder: &str) -> io::Result<String> {
    if folder == "/" {
        Err(io::Error::from(ErrorKind::InvalidInput))
    } else {
        Ok(format!(in alloc; "{folder}{CHIP_END}")?)
    }
}

// Writes the path of a file into `path`.
fn join(path: &mut String, folder: &str, name: &str) -> Result<(), AllocError> {
    path.clear();
    path.push_str(folder)?;
    path.push('/')?;
    path.push_str(name)
}

// Where there is no such file, that is `Ok`.
fn remove_file(files: &impl Files, path: &str) -> io::Result<()> {
    match fs::remove_file(files, path) {
        Err(error) if error.kind() == ErrorKind::NotFound => Ok(()),
        removed => removed,
    }
}

// Makes a file anew. What has its name is removed first, so nothing is written through a link.
fn make_file<F: OpenFile, R: Files<File = F>>(files: &R, path: &str) -> io::Result<F> {
    remove_file(files, path)?;
    let mut options = OpenOptions::new();
    options.write(true);
    options.create_new(true);
    options.mode(PRIVATE_FILE);
    let file = options.open(files, path)?;
    // The mode that the system gave it may lack bits.
    file.set_permissions(Permissions::from_mode(PRIVATE_FILE))?;
    Ok(file)
}

// Opens a regular file to be read. Another is looked at only, since to open a pipe would wait.
fn open_file<F: OpenFile + Drop, R: Files<File = F>>(files: &R, path: &str) -> io::Result<F> {
    if fs::symlink_metadata(files, path)?.is_file() {
        fs::open(files, path)
    } else {
        Err(io::Error::from(ErrorKind::InvalidData))
    }
}

fn open_folder<F, R: Files<File = F>>(files: &R, path: String) -> io::Result<OpenFolder<F>> {
    let file = fs::open(files, path.as_str())?;
    Ok(OpenFolder { path, file })
}

impl<R, F> RealFolder<R, F>
where
    R: Files<File = F> + AllocGlobal + Clone + Drop,
    F: Read + Write + OpenFile + LockFile + Drop,
{
    /// Makes both directories where they are absent, and locks the chip's.
    pub fn open(rt: R, alloc: Global, dir: &str) -> io::Result<RealFolder<R, F>> {
        let dir = without_slashes(dir);
        make_folders(&rt, dir)?;
        // One directory has one chip, however it is named.
        let files = rt.canonicalize(alloc, dir)?.into_string();
        let chip = chip_path(alloc, files.as_str())?;
        make_folders(&rt, chip.as_str())?;
        sync_found(&rt, chip.as_str())?;
        let files = open_folder(&rt, files)?;
        let chip = open_folder(&rt, chip)?;
        chip.file.try_lock()?;
        RealFolder::with_room(rt, alloc, files, chip)
    }

    // Takes the room for the paths.
    fn with_room(
        rt: R,
        alloc: Global,
        files: OpenFolder<F>,
        chip: OpenFolder<F>,
    ) -> io::Result<RealFolder<R, F>> {
        let room = chip.path.len().saturating_add(NAME_ROOM);
        let path = String::with_capacity(alloc, room)?;
        let target = String::with_capacity(alloc, room)?;
        let written_path = String::with_capacity(alloc, room)?;
        Ok(RealFolder {
            rt,
            files,
            chip,
            path,
            target,
            written: None,
            written_path,
        })
    }

    /// The names of the regular files that are UTF-8, in the order of their bytes.
    pub fn names(&mut self, alloc: Global) -> io::Result<Vec<Text>>
        ensures sorted { IfOk result (λ names. IsSorted (slice_cmp nat_cmp) names.items) }
    {
        let mut names = Vec::new(alloc);
        for entry in fs::read_dir(&self.rt, self.files.path.as_str())? {
            match entry {
                Ok(entry) => {
                    if entry.file_type()?.is_file() {
                        names.push(text_of(alloc, entry.file_name())?)?;
                    }
                }
                Err(error) if error.kind() == ErrorKind::InvalidFilename => {}
                Err(error) => return Err(error),
            }
        }
        names.sort()?;
        Ok(names)
    }

    /// The first `most` bytes of a file at most.
    pub fn bytes(&mut self, alloc: Global, name: &str, most: usize) -> io::Result<Vec<u8>> {
        join(&mut self.path, self.files.path.as_str(), name)?;
        let file = open_file(&self.rt, self.path.as_str())?;
        let mut bytes = Vec::new(alloc);
        file.take(most as u64).read_to_end(&mut bytes)?;
        Ok(bytes)
    }

    // Writes the file that `path` names, which is made anew and stays open.
    fn write_path(&mut self, bytes: &[u8]) -> io::Result<()> {
        self.written = None;
        let mut file = make_file(&self.rt, self.path.as_str())?;
        file.write_all(bytes)?;
        self.written_path.clear();
        self.written_path.push_str(self.path.as_str())?;
        self.written = Some(file);
        Ok(())
    }

    // The file that `path` names: the one that was written last is open still.
    fn open_path(&mut self) -> io::Result<F> {
        if self.written_path.as_str() == self.path.as_str() {
            if let Some(file) = self.written.take() {
                return Ok(file);
            }
        }
        open_file(&self.rt, self.path.as_str())
    }

    // Renames what `path` names to `target`.
    fn rename_path(&mut self) -> io::Result<()> {
        self.written = None;
        fs::rename(&self.rt, self.path.as_str(), self.target.as_str())
    }

    /// Makes a file anew with these bytes, and keeps it open.
    pub fn write(&mut self, name: &str, bytes: &[u8]) -> io::Result<()> {
        join(&mut self.path, self.files.path.as_str(), name)?;
        self.write_path(bytes)
    }

    /// The open file of this name.
    pub fn file(&mut self, name: &str) -> io::Result<F> {
        join(&mut self.path, self.files.path.as_str(), name)?;
        self.open_path()
    }

    pub fn rename(&mut self, from: &str, to: &str) -> io::Result<()> {
        join(&mut self.path, self.files.path.as_str(), from)?;
        join(&mut self.target, self.files.path.as_str(), to)?;
        self.rename_path()
    }

    /// Where there is no such file, that is `Ok`.
    pub fn remove(&mut self, name: &str) -> io::Result<()> {
        join(&mut self.path, self.files.path.as_str(), name)?;
        self.written = None;
        remove_file(&self.rt, self.path.as_str())
    }

    /// Syncs the directory of files.
    pub fn sync_files(&self) -> io::Result<()> {
        self.files.file.sync_all()
    }

    /// Syncs the chip's directory.
    pub fn sync_chip(&self) -> io::Result<()> {
        self.chip.file.sync_all()
    }

    /// The chip's words: 256 zero bytes where there is no such file, and a fault where it has another
    /// length.
    pub fn words(&mut self) -> io::Result<[u8; 256]> {
        join(&mut self.path, self.chip.path.as_str(), WORDS)?;
        let mut words = [0u8; 256];
        let mut file = match open_file(&self.rt, self.path.as_str()) {
            Err(error) if error.kind() == ErrorKind::NotFound => return Ok(words),
            opened => opened?,
        };
        file.read_exact(&mut words)?;
        let mut next = [0u8; 1];
        if file.read(&mut next)? == 0 {
            Ok(words)
        } else {
            Err(io::Error::from(ErrorKind::InvalidData))
        }
    }

    /// Writes new words for the chip into a temporary file, which is made anew and stays open.
    pub fn write_words(&mut self, words: &[u8; 256]) -> io::Result<()> {
        join(&mut self.path, self.chip.path.as_str(), NEW_WORDS)?;
        self.write_path(words.as_slice())
    }

    /// The open file of the new words.
    pub fn new_words(&mut self) -> io::Result<F> {
        join(&mut self.path, self.chip.path.as_str(), NEW_WORDS)?;
        self.open_path()
    }

    /// Puts the new words in the place of the old ones.
    pub fn replace_words(&mut self) -> io::Result<()> {
        join(&mut self.path, self.chip.path.as_str(), NEW_WORDS)?;
        join(&mut self.target, self.chip.path.as_str(), WORDS)?;
        self.rename_path()
    }
}

fn text_of(alloc: Global, name: &str) -> io::Result<Text> {
    match Text::from_str(alloc, name) {
        Ok(name) => Ok(name),
        Err(NoMemory) => Err(io::Error::from(ErrorKind::OutOfMemory)),
    }
}
