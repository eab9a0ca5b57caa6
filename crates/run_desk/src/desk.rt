//! What a run finds outside: the moment of its start, its entropy, a board, and clients.

ghost use Rattle.std.specs.Prelude.{◌≡◌, ℕ, List, [], ◌∷◌, IfOk, OnOk, IsErr, IfSome, OnErr, IsErrOf};
ghost use Rattle.fault_count.specs.Causes.{HasCause};
ghost use Rattle.run_desk.specs.Desk.{DeskSeen, KeepsNumbers, KeepsBoard, HandsOut};

use board_model::Board;
use fault_count::Failed;
use request_loop::{Clock, Sink, Source};
use std::alloc::Global;

/// One client's ends: where its lines come from, where its replies go, and its clock.
#[derive(Drop)]
pub struct Client<S, K, C> {
    pub source: S,
    pub sink: K,
    pub clock: C,
}

/// Why a desk has no answer.
#[derive(Clone, Copy, Debug, PartialEq, Eq)]
pub enum DeskFault {
    /// The desk failed, and its count of faults rose.
    Failed,
    /// There was no memory.
    NoMemory,
}

/// What a run finds outside.
///
/// Each call keeps all that the desk has but its count of faults and what it hands out with `Ok`.
pub trait Desk {
    type Board: Board + Send + Drop;

    type Source: Source + Send + Drop;

    type Sink: Sink + Send + Drop;

    type Clock: Clock + Send + Drop;

    ghost use Rattle.run_desk.specs.Desk.{DeskSeen};

    /// What it has to hand out, and how often it has failed. The count never falls, and stays at
    /// 2^64 - 1 once it is there.
    ghost seen: { Self → DeskSeen Self.Board Self.Source Self.Sink Self.Clock };

    /// The number for the moment of opening, in seconds.
    fn start_moment(&mut self) -> u64
        ensures value { result ≡ (seen self.old).moment }
        ensures numbers { KeepsNumbers (seen self.old) (seen self.new) }
        ensures board { KeepsBoard (seen self.old) (seen self.new) }
        ensures clients { HandsOut (seen self.old) (seen self.new) [] }
        ensures faults { (seen self.new).faults ≡ (seen self.old).faults };

    /// The run's entropy.
    fn entropy(&mut self) -> Result<[u8; 32], Failed>
        ensures value { IfOk result (λ bytes. IfSome (seen self.old).entropy (λ told. bytes ≡ told)) }
        ensures numbers { KeepsNumbers (seen self.old) (seen self.new) }
        ensures board { KeepsBoard (seen self.old) (seen self.new) }
        ensures clients { HandsOut (seen self.old) (seen self.new) [] }
        ensures cause { HasCause (seen self.old).faults (seen self.new).faults (IsErr result) };

    /// The board over this directory.
    fn open_board(&mut self, alloc: Global, dir: &str) -> Result<Self::Board, DeskFault>
        ensures board { IfOk result ((seen self.old).board dir.now) }
        ensures board_kept { OnErr result (KeepsBoard (seen self.old) (seen self.new)) }
        ensures numbers { KeepsNumbers (seen self.old) (seen self.new) }
        ensures clients { HandsOut (seen self.old) (seen self.new) [] }
        ensures cause { HasCause (seen self.old).faults (seen self.new).faults
            (IsErrOf result DeskFault.Failed) };

    /// The client of this number.
    fn open_client(
        &mut self,
        alloc: Global,
        number: u32,
    ) -> Result<Client<Self::Source, Self::Sink, Self::Clock>, DeskFault>
        ensures client { IfOk result (λ opened. HandsOut (seen self.old) (seen self.new) (opened ∷ [])) }
        ensures clients_kept { OnErr result (HandsOut (seen self.old) (seen self.new) []) }
        ensures numbers { KeepsNumbers (seen self.old) (seen self.new) }
        ensures board { KeepsBoard (seen self.old) (seen self.new) }
        ensures cause { HasCause (seen self.old).faults (seen self.new).faults
            (IsErrOf result DeskFault.Failed) };
}
