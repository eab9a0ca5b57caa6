//! The desk over the real system. It tells nothing but the moment and that all counts begin at 0.

ghost use Rattle.std.specs.Prelude.{◌≡◌, ◌==◌, true, false, None, IfOk};
ghost use Rattle.fault_count.specs.Causes.{HasCause};
ghost use Rattle.cryptohome_cli.specs.Fresh.{IsFresh, IsStandard};

use crate::client_files::ClientFiles;
use crate::clock::{SystemClock, seconds};
use crate::input::Input;
use crate::output::Output;
use board_model::{BoardFault, FileBoard};
use fault_count::{Failed, FaultCount};
use run_desk::{Client, Desk, DeskFault};
use std::alloc::Global;
use std::fs::File;
use std::io::{self, ErrorKind, Read};

/// The desk of the program: a directory of the system, standard input and output, the files or named pipes
/// beside the directory, and the system's clock.
#[derive(Drop)]
pub struct RealDesk {
    rt: HostRuntime,
    moment: u64,
    // The directory of the board without slashes at its end, once it is open: clients' files lie beside it.
    beside: Option<String>,
    faults: FaultCount,
}

impl RealDesk {
    /// The desk, at this moment.
    pub fn new(rt: HostRuntime) -> RealDesk {
        RealDesk {
            rt,
            moment: seconds(&rt),
            beside: None,
            faults: FaultCount::new(),
        }
    }

    // A client over standard input and output.
    fn standard_client(&self) -> Client<Input, Output, SystemClock>
        ensures fresh { IsFresh result }
        ensures streams { IsStandard true result }
    {
        Client {
            source: Input::standard(&self.rt),
            sink: Output::standard(self.rt),
            clock: SystemClock::new(self.rt),
        }
    }

    // A client over its files beside the directory, which is open.
    fn client_over_files(
        &self,
        alloc: Global,
        number: u32,
    ) -> io::Result<Client<Input, Output, SystemClock>>
        ensures fresh { IfOk result IsFresh }
        ensures streams { IfOk result (IsStandard false) }
    {
        let Some(beside) = &self.beside else {
            return Err(io::Error::from(ErrorKind::NotFound));
        };
        let files = ClientFiles::open(&self.rt, alloc, beside.as_str(), number)?;
        Ok(Client {
            source: Input::opened(files.input),
            sink: Output::opened(files.output),
            clock: SystemClock::new(self.rt),
        })
    }

    // Client 0, and no other, has standard input and output.
    fn client(&self, alloc: Global, number: u32) -> io::Result<Client<Input, Output, SystemClock>>
        ensures fresh { IfOk result IsFresh }
        ensures streams { IfOk result (IsStandard (number == 0)) }
    {
        if number == 0 {
            Ok(self.standard_client())
        } else {
            self.client_over_files(alloc, number)
        }
    }
}

// Bytes of the system's source of randomness.
fn random_bytes(rt: &HostRuntime) -> io::Result<[u8; 32]> {
    let mut bytes = [0u8; 32];
    let mut file = File::open(rt, "/dev/urandom")?;
    file.read_exact(&mut bytes)?;
    Ok(bytes)
}

// Counts that the system failed. Want of memory is an answer of its own, and isn't counted.
fn counted(faults: &mut FaultCount, no_memory: bool) -> DeskFault
    ensures cause { HasCause faults.old faults.new (result ≡ DeskFault.Failed) }
{
    if no_memory {
        return DeskFault::NoMemory;
    }
    let _ = faults.raise();
    DeskFault::Failed
}

impl Desk for RealDesk {
    type Board = FileBoard<HostRuntime>;

    type Source = Input;

    type Sink = Output;

    type Clock = SystemClock;

    ghost use Rattle.std.specs.List.{AllByRecursion};
    ghost use Rattle.board_model.specs.RealBoard.{faults_of};
    ghost use Rattle.cryptohome_cli.specs.Fresh.{IsFresh};

    ghost seen = { λ d. record {
      moment = d.moment;
      entropy = None;
      board = λ dir board. faults_of board ≡ 0;
      clients = AllByRecursion IsFresh;
      faults = d.faults;
    } };

    fn start_moment(&mut self) -> u64 {
        self.moment
    }

    fn entropy(&mut self) -> Result<[u8; 32], Failed> {
        match random_bytes(&self.rt) {
            Ok(bytes) => Ok(bytes),
            Err(_) => Err(self.faults.raise()),
        }
    }

    fn open_board(&mut self, alloc: Global, dir: &str) -> Result<Self::Board, DeskFault> {
        let Ok(beside) = String::from_str(alloc, dir.trim_end_matches('/')) else {
            return Err(DeskFault::NoMemory);
        };
        match FileBoard::open(self.rt, alloc, dir) {
            Ok(board) => {
                self.beside = Some(beside);
                Ok(board)
            }
            Err(fault) => {
                let no_memory = matches!(fault, BoardFault::NoMemory);
                Err(counted(&mut self.faults, no_memory))
            }
        }
    }

    fn open_client(
        &mut self,
        alloc: Global,
        number: u32,
    ) -> Result<Client<Input, Output, SystemClock>, DeskFault> {
        match self.client(alloc, number) {
            Ok(client) => Ok(client),
            Err(error) => {
                let no_memory = error.kind() == ErrorKind::OutOfMemory;
                Err(counted(&mut self.faults, no_memory))
            }
        }
    }
}
