//! A run's home is begun over the board that the desk hands out.

ghost use Rattle.std.specs.Prelude.{◌≡◌, ◌≤◌, ◌<◌, ◌^◌, [], map, length, All, IfOk, IfErr, IsTrue, vec_capacity};
ghost use Rattle.std.specs.List.{list_all, range_with_len};
ghost use Rattle.home_names.specs.Names.{is_account_name};
ghost use Rattle.board_device.specs.Device.{era_of, seen_by};
ghost use Rattle.client_seats.specs.Clients.{client_view, new_client};
ghost use Rattle.client_seats.specs.Gathering.{HaveEachNumber};
ghost use Rattle.home_seats.specs.Seats.{lock_seen};
ghost use Rattle.user_home.specs.Ending.{CanEnd, IsRoomFor};
ghost use Rattle.user_home.specs.Open.{IsServable};
ghost use Rattle.home_begin.specs.Begins.{IsBegun, IsNotBegun};
ghost use Rattle.run_desk.specs.Desk.{HandsOut};
ghost use Rattle.serve_words.specs.Limits.{IsBounded, client_count, seen_of};
ghost use Rattle.serve_run.specs.Begun.{HasBegun, HasNotBegun};

use board_model::Board;
use ct_bytes::Text;
use home_begin::{BegunHome, begin_home, begun_home_can_end, begun_home_is_servable};
use home_opening::{HomeFault, Opening};
use pw_types::{Era, cut_moment};
use request_loop::{Clock, Sink, Source};
use run_desk::{Desk, DeskFault};
use serve_words::ServeOptions;
use std::alloc::Global;
use std::sync::Wait;

/// Why a run's home wasn't begun.
pub enum Unbegun<B> {
    /// The desk gave no entropy.
    NoEntropy,
    /// The desk gave no board.
    NoBoard(DeskFault),
    /// The home was refused over the board.
    Refused(HomeFault, B),
}

// Begins the home of a board. It can be served and ended.
fn begin_over<R: Wait, B: Board + Drop>(
    rt: &R,
    alloc: Global,
    board: B,
    named: Vec<Text>,
    opening: &Opening<'_>,
) -> Result<BegunHome<B>, (HomeFault, B)>
    requires plain { IsTrue (list_all is_account_name named.items) }
    requires least { 1 ≤ opening.now.cost }
    requires most { opening.now.cost ≤ 16 }
    requires moment { opening.now.moment < 2 ^ 40 }
    requires clients { 0 < opening.now.clients }
    ensures begun { IfOk result (λ begun. IsBegun B.disk B.faults board named.items opening.now
        begun.home.shared.first.device begun.home.shared.id begun.home.names.items
        (map (λ lock. lock_seen lock.id lock.first.seat lock.first.state lock.first.era) begun.home.locks.items)
        begun.home.idle) }
    ensures wholes { IfOk result (λ begun. IsRoomFor (length begun.home.locks.items) begun.home.wholes.items
        (vec_capacity begun.home.wholes)) }
    ensures parts { IfOk result (λ begun. IsRoomFor (length begun.home.locks.items) begun.home.parts.items
        (vec_capacity begun.home.parts)) }
    ensures books { IfOk result (λ begun. IsRoomFor (length begun.home.locks.items) begun.home.books.items
        (vec_capacity begun.home.books)) }
    ensures clients { IfOk result (λ begun. map client_view begun.clients.items
        ≡ map (new_client (map (λ lock. lock.id) begun.home.locks.items)) (range_with_len 0 opening.now.clients)) }
    ensures servable { IfOk result (λ begun. IsServable (seen_by B.faults begun.home.shared.first.device)
        begun.home.shared.id begun.home.names.items
        (map (λ lock. lock_seen lock.id lock.first.seat lock.first.state lock.first.era) begun.home.locks.items)) }
    ensures can { IfOk result (λ begun. CanEnd begun.home.shared.id (era_of begun.home.shared.first.device)
        (map (λ lock. lock_seen lock.id lock.first.seat lock.first.state lock.first.era) begun.home.locks.items)
        begun.home.idle) }
    ensures numbers { IfOk result (λ begun. All (λ lock. HaveEachNumber
        (map (λ client. client.number) begun.clients.items) lock.id.callers) begun.home.locks.items) }
    ensures refused { IfErr result (λ refused. IsNotBegun B.disk B.faults board named.items opening.now refused.0
        refused.1) }
{
    begun_home_is_servable::<B>();
    begun_home_can_end::<B>();
    begin_home(rt, alloc, board, named, opening)
}

/// Begins the home that is asked, over the desk's board and with its moment and entropy, which is asked before the
/// board.
pub(crate) fn begin_asked<R: Wait, D: Desk>(
    rt: &R,
    alloc: Global,
    options: ServeOptions,
    desk: &mut D,
) -> Result<BegunHome<D::Board>, Unbegun<D::Board>>
    requires bounded { IsBounded (seen_of options) }
    ensures begun { IfOk result (λ begun. HasBegun
        (record {
          disk = D.Board.disk;
          board_faults = D.Board.faults;
          left = D.Source.left;
          taken = D.Source.taken;
          source_faults = D.Source.faults;
          written = D.Sink.written;
          sink_faults = D.Sink.faults;
          given = D.Clock.given;
        })
        (seen_of options) (D.seen desk.old) (D.seen desk.new)
        begun.home.shared.first.device begun.home.shared.id begun.home.names.items
        (map (λ lock. lock_seen lock.id lock.first.seat lock.first.state lock.first.era) begun.home.locks.items)
        begun.home.idle) }
    ensures wholes { IfOk result (λ begun. IsRoomFor (length begun.home.locks.items) begun.home.wholes.items
        (vec_capacity begun.home.wholes)) }
    ensures parts { IfOk result (λ begun. IsRoomFor (length begun.home.locks.items) begun.home.parts.items
        (vec_capacity begun.home.parts)) }
    ensures books { IfOk result (λ begun. IsRoomFor (length begun.home.locks.items) begun.home.books.items
        (vec_capacity begun.home.books)) }
    ensures clients { IfOk result (λ begun. map client_view begun.clients.items
        ≡ map (new_client (map (λ lock. lock.id) begun.home.locks.items))
        (range_with_len 0 (client_count options.clients))) }
    ensures servable { IfOk result (λ begun. IsServable (seen_by D.Board.faults begun.home.shared.first.device)
        begun.home.shared.id begun.home.names.items
        (map (λ lock. lock_seen lock.id lock.first.seat lock.first.state lock.first.era) begun.home.locks.items)) }
    ensures can { IfOk result (λ begun. CanEnd begun.home.shared.id (era_of begun.home.shared.first.device)
        (map (λ lock. lock_seen lock.id lock.first.seat lock.first.state lock.first.era) begun.home.locks.items)
        begun.home.idle) }
    ensures numbers { IfOk result (λ begun. All (λ lock. HaveEachNumber
        (map (λ client. client.number) begun.clients.items) lock.id.callers) begun.home.locks.items) }
    ensures not_begun { IfErr result (HasNotBegun
        (record {
          disk = D.Board.disk;
          board_faults = D.Board.faults;
          left = D.Source.left;
          taken = D.Source.taken;
          source_faults = D.Source.faults;
          written = D.Sink.written;
          sink_faults = D.Sink.faults;
          given = D.Clock.given;
        })
        (seen_of options) (D.seen desk.old) (D.seen desk.new)) }
    ensures clients_kept { HandsOut (D.seen desk.old) (D.seen desk.new) [] }
{
    let clients = options.client_count();
    let moment = cut_moment(desk.start_moment());
    let Ok(entropy) = desk.entropy() else {
        return Err(Unbegun::NoEntropy);
    };
    let board = match desk.open_board(alloc, options.dir.as_str()) {
        Ok(board) => board,
        Err(fault) => return Err(Unbegun::NoBoard(fault)),
    };
    let opening = Opening {
        entropy: &entropy,
        cost: options.cost,
        moment,
        era: Era {
            boot: 0,
            start: moment,
        },
        clients,
    };
    let begun = begin_over(rt, alloc, board, options.accounts, &opening);
    let Opening {
        entropy: _,
        cost: _,
        moment: _,
        era: _,
        clients: _,
    } = opening;
    match begun {
        Ok(begun) => Ok(begun),
        Err((fault, board)) => Err(Unbegun::Refused(fault, board)),
    }
}
