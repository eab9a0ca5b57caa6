//! The top call.

ghost use Rattle.std.specs.Prelude.{◌≡◌, map, string_bytes, None};
ghost use Rattle.run_ending.specs.declared.ending.Ending.{Ending as EndingSeen};
ghost use Rattle.run_ending.specs.Ending.{Shows};
ghost use Rattle.serve_words.specs.Limits.{IsBounded, seen_of};
ghost use Rattle.serve_run.specs.Left.{left_over};
ghost use Rattle.serve_run.specs.Run.{Did, DidFor, board_unbegun, ending_of_words, ending_refused, ending_unbegun, ending_without_board};

use crate::begin::{Unbegun, begin_asked};
use crate::left::{Left, Outcome, only_board};
use crate::serve::{Serving, serve_begun};
use board_model::Board;
use home_begin::begun_accounts_open;
use home_opening::HomeFault;
use request_loop::{Clock, Sink, Source};
use run_desk::{Desk, DeskFault};
use run_ending::{Ending, SAID_ROOM};
use serve_words::{ServeOptions, UsageFault, serve_options, what_is_asked_is_bounded};
use std::alloc::Global;
use std::sync::Wait;
use std::thread::Threads;

// How a run ends whose words aren't served.
fn ending_of_words(fault: UsageFault) -> Ending
    ensures value { result ≡ ending_of_words fault }
{
    match fault {
        UsageFault::BadWords => Ending::BadWords,
        UsageFault::TooMany { accounts, clients } => Ending::TooMany { accounts, clients },
        UsageFault::NoMemory => Ending::NoMemory,
    }
}

// How a run ends to which the desk gave no board.
fn ending_without_board(fault: DeskFault) -> Ending
    ensures value { result ≡ ending_without_board fault }
{
    match fault {
        DeskFault::Failed => Ending::BoardFault,
        DeskFault::NoMemory => Ending::NoMemory,
    }
}

// How a run for so many clients ends whose home was refused.
fn ending_refused(clients: u32, fault: HomeFault) -> Ending
    ensures value { result ≡ ending_refused clients fault }
{
    match fault {
        HomeFault::Failed => Ending::BoardFault,
        HomeFault::Damaged(name) => Ending::Damaged(name),
        HomeFault::TooMany { accounts } => Ending::TooMany {
            accounts: accounts as u64,
            clients: u64::from(clients),
        },
        HomeFault::NoMemory => Ending::NoMemory,
    }
}

// How a run ends whose home wasn't begun, and the board that is left of it.
fn end_unbegun<B: Board + Drop>(clients: u32, unbegun: Unbegun<B>) -> (Option<B>, Ending)
    ensures board { result.0 ≡ board_unbegun unbegun }
    ensures ending { result.1 ≡ ending_unbegun clients unbegun }
{
    match unbegun {
        Unbegun::NoEntropy => (None, Ending::NoEntropy),
        Unbegun::NoBoard(fault) => (None, ending_without_board(fault)),
        Unbegun::Refused(fault, board) => (Some(board), ending_refused(clients, fault)),
    }
}

// Serves what is asked.
fn serve_asked<R: Threads + Wait + Sync, D: Desk>(
    rt: &R,
    alloc: Global,
    options: ServeOptions,
    desk: &mut D,
) -> (Left<D::Board, D::Source, D::Sink, D::Clock>, Ending)
    requires bounded { IsBounded (seen_of options) }
    ensures did { Did
        (record {
          disk = D.Board.disk;
          board_faults = D.Board.faults;
          left = D.Source.left;
          taken = D.Source.taken;
          source_faults = D.Source.faults;
          written = D.Sink.written;
          sink_faults = D.Sink.faults;
          given = D.Clock.given;
        })
        (D.seen desk.old) (D.seen desk.new) (left_over result.0) (seen_of options) result.1 }
{
    begun_accounts_open::<D::Board>();
    let asked = options.clients;
    let serving = Serving {
        first: options.first_client(),
        count: options.client_count(),
        cost: options.cost,
    };
    let Ok(clients) = Vec::with_capacity(alloc, serving.count as usize) else {
        return (only_board(alloc, None), Ending::NoMemory);
    };
    match begin_asked(rt, alloc, options, desk) {
        Ok(begun) => serve_begun(rt, alloc, begun, clients, serving, desk),
        Err(unbegun) => {
            let (board, ending) = end_unbegun(asked, unbegun);
            (only_board(alloc, board), ending)
        }
    }
}

// Does what the words ask.
fn do_asked<R: Threads + Wait + Sync, D: Desk>(
    rt: &R,
    alloc: Global,
    words: &[String],
    desk: &mut D,
) -> (Left<D::Board, D::Source, D::Sink, D::Clock>, Ending)
    ensures did { DidFor
        (record {
          disk = D.Board.disk;
          board_faults = D.Board.faults;
          left = D.Source.left;
          taken = D.Source.taken;
          source_faults = D.Source.faults;
          written = D.Sink.written;
          sink_faults = D.Sink.faults;
          given = D.Clock.given;
        })
        (D.seen desk.old) (D.seen desk.new) (left_over result.0) (map string_bytes words.now) result.1 }
{
    what_is_asked_is_bounded();
    match serve_options(alloc, words) {
        Ok(options) => serve_asked(rt, alloc, options, desk),
        Err(fault) => (only_board(alloc, None), ending_of_words(fault)),
    }
}

/// Serves the home that the words `serve [--clients N] [--cost K] DIR [NAME..]` ask (docs/PROTOCOL.md): all accounts that
/// are named or found in the directory, to all clients, until their inputs end.
///
/// Clients are served side by side, each on a thread where one can be made. `desk` gives what is outside: the moment of
/// the start, entropy, the board over the directory and the clients' ends, asked in this order and each once.
pub fn run<R: Threads + Wait + Sync, D: Desk>(
    rt: &R,
    alloc: Global,
    words: &[String],
    desk: &mut D,
) -> Outcome<D>
    // The run came to one of the endings, which the outcome shows, and did what that ending says.
    ensures ended { (ending : EndingSeen)
        × Shows ending result.status result.said.items
        × DidFor
        (record {
          disk = D.Board.disk;
          board_faults = D.Board.faults;
          left = D.Source.left;
          taken = D.Source.taken;
          source_faults = D.Source.faults;
          written = D.Sink.written;
          sink_faults = D.Sink.faults;
          given = D.Clock.given;
        })
        (D.seen desk.old) (D.seen desk.new) (left_over result.left) (map string_bytes words.now) ending }
{
    let Ok(mut said) = Vec::with_capacity(alloc, SAID_ROOM) else {
        return Outcome {
            status: Ending::NoMemory.status(),
            left: only_board(alloc, None),
            said: Vec::new(alloc),
        };
    };
    let (left, ending) = do_asked(rt, alloc, words, desk);
    ending.say(&mut said);
    Outcome {
        status: ending.status(),
        left,
        said,
    }
}
