//! Where a client's lines come from: standard input, or a file or named pipe.

ghost use Rattle.std.specs.Prelude.{◌≡◌, ◌≤◌, true, false, None, IfOk, length};
ghost use Rattle.cryptohome_cli.specs.Streams.{reads_standard};

use fault_count::{Failed, FaultCount};
use request_loop::Source;
use std::fs::File;
use std::io::{self, ErrorKind, Read, StdinLock};

/// A stream of the system that is read.
#[derive(Drop)]
pub enum InputStream {
    /// Standard input.
    Standard(StdinLock<'static>),
    /// A file or named pipe that was opened.
    Opened(File),
}

/// A client's input. Its stream is open for as long as it is there.
#[derive(Drop)]
pub struct Input {
    stream: InputStream,
    taken: u64,
    faults: FaultCount,
}

impl Input {
    // Nothing of it was taken yet, and nothing has failed.
    fn new(stream: InputStream) -> Input
        ensures taken { result.taken ≡ 0 }
        ensures faults { result.faults ≡ 0 }
        ensures stream { result.stream ≡ stream }
    {
        Input {
            stream,
            taken: 0,
            faults: FaultCount::new(),
        }
    }

    /// Standard input.
    pub fn standard(rt: &HostRuntime) -> Input
        ensures taken { result.taken ≡ 0 }
        ensures faults { result.faults ≡ 0 }
        ensures stream { reads_standard result.stream ≡ true }
    {
        Input::new(InputStream::Standard(rt.reader()))
    }

    /// A file or named pipe that was opened to be read.
    pub fn opened(file: File) -> Input
        ensures taken { result.taken ≡ 0 }
        ensures faults { result.faults ≡ 0 }
        ensures stream { reads_standard result.stream ≡ false }
    {
        Input::new(InputStream::Opened(file))
    }
}

// Reads once. A read that a signal interrupted is made again.
fn read_again<R: Read>(reader: &mut R, buf: &mut [u8]) -> io::Result<usize>
    ensures within { IfOk result (λ count. count ≤ length buf.new) }
{
    for _ in 0..u64::MAX {
        match reader.read(buf) {
            Err(error) if error.kind() == ErrorKind::Interrupted => {}
            outcome => return outcome,
        }
    }
    Err(io::Error::from(ErrorKind::Interrupted))
}

// Reads once from either stream.
fn read_stream(stream: &mut InputStream, buf: &mut [u8]) -> io::Result<usize>
    ensures within { IfOk result (λ count. count ≤ length buf.new) }
    ensures stream { reads_standard stream.new ≡ reads_standard stream.old }
{
    match stream {
        InputStream::Standard(reader) => read_again(reader, buf),
        InputStream::Opened(file) => read_again(file, buf),
    }
}

impl Source for Input {
    ghost left = { λ s. None };

    ghost taken = { λ s. s.taken };

    ghost faults = { λ s. s.faults };

    fn read(&mut self, buf: &mut [u8]) -> Result<usize, Failed> {
        match read_stream(&mut self.stream, buf) {
            Ok(count) => {
                self.taken = self.taken.saturating_add(count as u64);
                Ok(count)
            }
            Err(_) => Err(self.faults.raise()),
        }
    }
}
