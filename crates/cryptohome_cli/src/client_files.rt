//! The files or named pipes of a client, beside the directory.

ghost use Rattle.std.specs.Prelude.{◌≡◌, IfOk, string_bytes};
ghost use Rattle.cryptohome_cli.specs.Paths.{input_path_of, output_path_of};

use std::alloc::{AllocError, Global};
use std::fs::{File, OpenOptions};
use std::io;
use std::os::unix::fs::OpenOptionsExt;

/// The mode of an output file that is made: its owner's alone.
const PRIVATE_FILE: u32 = 0o600;

/// A client's input and output, both open.
#[derive(Drop)]
pub struct ClientFiles {
    pub input: File,
    pub output: File,
}

// The path of a client's input.
fn input_path(alloc: Global, beside: &str, number: u32) -> Result<String, AllocError>
    ensures path { IfOk result (λ path. string_bytes path ≡ input_path_of beside.now number) }
{
    format!(in alloc; "{beside}.in.{number}")
}

// The path of a client's output.
fn output_path(alloc: Global, beside: &str, number: u32) -> Result<String, AllocError>
    ensures path { IfOk result (λ path. string_bytes path ≡ output_path_of beside.now number) }
{
    format!(in alloc; "{beside}.out.{number}")
}

// Opens a file to be written from its start, and makes it where it is absent.
fn open_output(rt: &HostRuntime, path: &str) -> io::Result<File> {
    let mut options = OpenOptions::new();
    options.write(true);
    options.create(true);
    options.truncate(true);
    options.mode(PRIVATE_FILE);
    options.open(rt, path)
}

impl ClientFiles {
    /// Opens `BESIDE.in.NUMBER` to be read, and then `BESIDE.out.NUMBER` to be written.
    ///
    /// The input has to be there. The output is made where it is absent, for its owner alone, and a file is
    /// cut to no bytes. Opening a named pipe waits until its other end is opened too.
    pub fn open(
        rt: &HostRuntime,
        alloc: Global,
        beside: &str,
        number: u32,
    ) -> io::Result<ClientFiles> {
        let input = input_path(alloc, beside, number)?;
        let output = output_path(alloc, beside, number)?;
        let input = File::open(rt, input.as_str())?;
        let output = open_output(rt, output.as_str())?;
        Ok(ClientFiles { input, output })
    }
}
