//! What is left of a run.

ghost use Rattle.std.specs.Prelude.{◌≡◌, None};
ghost use Rattle.serve_run.specs.Left.{left_over};
ghost use Rattle.serve_run.specs.Run.{HasNone};

use board_model::Board;
use ct_bytes::Text;
use home_locks::Entry;
use run_desk::{Client, Desk};
use std::alloc::Global;
use turn_lock::Chain;
use turn_meaning::TurnTaken;

/// What is left of a run.
///
/// `board` is there where it was opened, and `clients` are those that were opened, in order. `names` are the accounts of
/// the home that was served, and `books` their turns, in the same order.
#[derive(Drop)]
pub struct Left<B, S, K, C> {
    pub board: Option<B>,
    pub clients: Vec<Client<S, K, C>>,
    pub names: Vec<Text>,
    pub books: Vec<Chain<Entry<TurnTaken>>>,
}

/// The end of a run: the program's status (docs/PROTOCOL.md, "Statuses"), what is left, and what the program prints.
#[derive(Drop)]
pub struct Outcome<D: Desk> {
    pub status: u8,
    pub left: Left<D::Board, D::Source, D::Sink, D::Clock>,
    pub said: Vec<u8>,
}

/// What is left where no home was begun: the board, where it was opened.
pub(crate) fn only_board<B, S, K, C>(alloc: Global, board: Option<B>) -> Left<B, S, K, C>
    ensures board { result.board ≡ board }
    ensures none { HasNone (left_over result) }
{
    Left {
        board,
        clients: Vec::new(alloc),
        names: Vec::new(alloc),
        books: Vec::new(alloc),
    }
}
