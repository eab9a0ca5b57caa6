//! Where a client's replies go: standard output, or a file or named pipe.

ghost use Rattle.std.specs.Prelude.{◌≡◌, true, false, None};
ghost use Rattle.cryptohome_cli.specs.Streams.{writes_standard};

use fault_count::{Failed, FaultCount};
use request_loop::Sink;
use std::fs::File;
use std::io::{self, Write};

/// A stream of the system that is written. None of them keeps bytes back.
#[derive(Drop)]
pub enum OutputStream {
    /// Standard output.
    Standard(HostRuntime),
    /// A file or named pipe that was opened.
    Opened(File),
}

/// A client's output. Its stream is open for as long as it is there.
#[derive(Drop)]
pub struct Output {
    stream: OutputStream,
    faults: FaultCount,
}

impl Output {
    // Nothing has failed yet.
    fn new(stream: OutputStream) -> Output
        ensures faults { result.faults ≡ 0 }
        ensures stream { result.stream ≡ stream }
    {
        Output {
            stream,
            faults: FaultCount::new(),
        }
    }

    /// Standard output.
    pub fn standard(rt: HostRuntime) -> Output
        ensures faults { result.faults ≡ 0 }
        ensures stream { writes_standard result.stream ≡ true }
    {
        Output::new(OutputStream::Standard(rt))
    }

    /// A file or named pipe that was opened to be written.
    pub fn opened(file: File) -> Output
        ensures faults { result.faults ≡ 0 }
        ensures stream { writes_standard result.stream ≡ false }
    {
        Output::new(OutputStream::Opened(file))
    }
}

// Writes all of the bytes to either stream.
fn write_stream(stream: &mut OutputStream, bytes: &[u8]) -> io::Result<()> {
    match stream {
        OutputStream::Standard(rt) => rt.stdout().write_all(bytes),
        OutputStream::Opened(file) => file.write_all(bytes),
    }
}

impl Sink for Output {
    ghost written = { λ s. None };

    ghost faults = { λ s. s.faults };

    fn write(&mut self, bytes: &[u8]) -> Result<(), Failed> {
        match write_stream(&mut self.stream, bytes) {
            Ok(()) => Ok(()),
            Err(_) => Err(self.faults.raise()),
        }
    }
}
