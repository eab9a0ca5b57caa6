//! Homes over a board in memory, whose clients' keys are derived as a test says.

ghost use Rattle.std.specs.Prelude.{◌≡◌, ◌≤◌, ◌<◌, ◌^◌, map, length, All, IfOk, IsTrue, vec_capacity};
ghost use Rattle.std.specs.List.{list_all, range_with_len};
ghost use Rattle.home_names.specs.Names.{is_account_name};
ghost use Rattle.board_device.specs.Device.{era_of, seen_by};
ghost use Rattle.client_seats.specs.Clients.{client_view, new_client};
ghost use Rattle.client_seats.specs.Gathering.{HaveEachNumber};
ghost use Rattle.home_begin.specs.Begins.{IsBegun};
ghost use Rattle.home_seats.specs.Seats.{lock_seen};
ghost use Rattle.user_home.specs.Ending.{CanEnd, IsRoomFor};
ghost use Rattle.user_home.specs.Open.{IsServable};

use crate::lines::{ADD_MAIN, ADD_SPARE, CREATE, START};
use crate::sign::Signs;
use crate::source::{Line, WaitingSource};
use board_model::Board;
use ct_bytes::Text;
use home_begin::{BegunHome, begin_home, begun_home_can_end, begun_home_is_servable};
use home_opening::{HomeFault, Opening};
use home_serving::{ServedHome, serve_home};
use mem_board::MemBoard;
use pw_types::Era;
use request_loop::{ListClock, MemSink};
use run_desk::Client;
use std::alloc::Global;
use std::sync::Wait;
use std::test::Fail;
use std::thread::Threads;
use turn_secrets::{Kdf, PlainKdf};
use user_home::HomeBooks;

/// A home whose clients were served.
pub type Served<'a, B> = ServedHome<B, WaitingSource<'a>, MemSink, ListClock>;

/// The moment of each line.
const MOMENT: u64 = 1000;

/// A board with no files.
pub fn empty_board(alloc: Global) -> Result<MemBoard, Fail> {
    Ok(MemBoard::new(alloc, Vec::new(alloc), [0; 256], Vec::new(alloc))?)
}

// A client with these lines.
fn client_of<'a>(
    alloc: Global,
    signs: &'a Signs,
    lines: &'a [Line],
) -> Result<Client<WaitingSource<'a>, MemSink, ListClock>, Fail> {
    Ok(Client {
        source: WaitingSource::new(signs, lines),
        sink: MemSink::new(alloc, 100_000, Vec::new(alloc))?,
        clock: ListClock::new(Vec::from_slice(alloc, &[MOMENT])?),
    })
}

// Begins the home of a board. It can be served and ended.
fn begin_over<R: Wait, B: Board + Drop>(
    rt: &R,
    alloc: Global,
    board: B,
    named: Vec<Text>,
    opening: &Opening<'_>,
) -> Result<BegunHome<B>, (HomeFault, B)>
    requires plain { IsTrue (list_all is_account_name named.items) }
    requires least { 1 ≤ opening.now.cost }
    requires most { opening.now.cost ≤ 16 }
    requires moment { opening.now.moment < 2 ^ 40 }
    requires clients { 0 < opening.now.clients }
    ensures begun { IfOk result (λ begun. IsBegun B.disk B.faults board named.items opening.now
        begun.home.shared.first.device begun.home.shared.id begun.home.names.items
        (map (λ lock. lock_seen lock.id lock.first.seat lock.first.state lock.first.era) begun.home.locks.items)
        begun.home.idle) }
    ensures wholes { IfOk result (λ begun. IsRoomFor (length begun.home.locks.items) begun.home.wholes.items
        (vec_capacity begun.home.wholes)) }
    ensures parts { IfOk result (λ begun. IsRoomFor (length begun.home.locks.items) begun.home.parts.items
        (vec_capacity begun.home.parts)) }
    ensures books { IfOk result (λ begun. IsRoomFor (length begun.home.locks.items) begun.home.books.items
        (vec_capacity begun.home.books)) }
    ensures clients { IfOk result (λ begun. map client_view begun.clients.items
        ≡ map (new_client (map (λ lock. lock.id) begun.home.locks.items)) (range_with_len 0 opening.now.clients)) }
    ensures servable { IfOk result (λ begun. IsServable (seen_by B.faults begun.home.shared.first.device)
        begun.home.shared.id begun.home.names.items
        (map (λ lock. lock_seen lock.id lock.first.seat lock.first.state lock.first.era) begun.home.locks.items)) }
    ensures can { IfOk result (λ begun. CanEnd begun.home.shared.id (era_of begun.home.shared.first.device)
        (map (λ lock. lock_seen lock.id lock.first.seat lock.first.state lock.first.era) begun.home.locks.items)
        begun.home.idle) }
    ensures numbers { IfOk result (λ begun. All (λ lock. HaveEachNumber
        (map (λ client. client.number) begun.clients.items) lock.id.callers) begun.home.locks.items) }
{
    begun_home_is_servable::<B>();
    begun_home_can_end::<B>();
    begin_home(rt, alloc, board, named, opening)
}

/// Serves two clients of the home over a board, with this derivation of keys.
pub fn serve_two<'a, R: Threads + Wait + Sync, B: Board + Send + Drop, F: Kdf + Copy + Sync + Drop>(
    rt: &R,
    alloc: Global,
    board: B,
    signs: &'a Signs,
    first: &'a [Line],
    second: &'a [Line],
    kdf: F,
) -> Result<Served<'a, B>, Fail> {
    let mut ends = Vec::new(alloc);
    ends.push(client_of(alloc, signs, first)?)?;
    ends.push(client_of(alloc, signs, second)?)?;
    let mut names = Vec::new(alloc);
    names.push(Text::from_str(alloc, "ann")?)?;
    names.push(Text::from_str(alloc, "bob")?)?;
    let opening = Opening {
        entropy: &[7; 32],
        cost: 1,
        moment: 900,
        era: Era {
            boot: 0,
            start: 900,
        },
        clients: 2,
    };
    let begun = begin_over(rt, alloc, board, names, &opening);
    let Opening {
        entropy: _,
        cost: _,
        moment: _,
        era: _,
        clients: _,
    } = opening;
    match begun {
        Ok(BegunHome { home, clients }) => {
            Ok(serve_home(rt, alloc, home, clients, ends, kdf, 1, 0))
        }
        Err(_) => Err(Fail::new("no home was begun")),
    }
}

/// The reply to a change that was made.
pub const MADE: &str = r#"{"answer":"ok"}"#;

// The lines that make ann's home.
const MAKE: [Line; 4] = [
    (None, CREATE, None),
    (None, START, None),
    (None, ADD_MAIN, None),
    (None, ADD_SPARE, None),
];

/// The board that is left of a home.
pub fn board_left<B: Board + Drop>(served: Served<'_, B>) -> B {
    let ServedHome {
        clients: _,
        end: _,
        left,
    } = served;
    let HomeBooks {
        board,
        names: _,
        books: _,
    } = left;
    board
}

/// A board with the home of ann, who has the passwords `main` and `spare`.
pub fn made_home<R: Threads + Wait + Sync>(rt: &R, alloc: Global) -> Result<MemBoard, Fail> {
    let signs = Signs::new();
    let board = empty_board(alloc)?;
    let served = serve_two(rt, alloc, board, &signs, &MAKE, &[], PlainKdf)?;
    Ok(board_left(served))
}

/// What the client at this place was written.
pub fn written<'s, B: Board + Drop>(served: &'s Served<'_, B>, place: usize) -> &'s [u8] {
    match served.clients.get(place) {
        Some(client) => client.sink.written(),
        None => b"no client",
    }
}
