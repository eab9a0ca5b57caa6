//! The home.

use board_device::BoardDevice;
use board_model::Board;
use client_seats::WholeLock;
use ct_bytes::Text;
use home_locks::{Account, Entry, Part};
use platform_lock::{Shared, SharedDevice};
use turn_lock::{Chain, Seat, Turnstile};
use turn_meaning::TurnTaken;
use user_accounts::UserTurns;

/// The accounts of a board behind their locks, for a run.
///
/// The locks stand in the order of the names. The empty lists have room for what is gathered at the end.
#[derive(Drop)]
pub struct UserHome<B: Board + Drop> {
    pub shared: Shared<BoardDevice<B>>,
    pub names: Vec<Text>,
    pub locks: Vec<Turnstile<Account<UserTurns<B>>>>,
    /// The seat of the platform's lock, where there is no account.
    pub idle: Option<Seat<SharedDevice<BoardDevice<B>>>>,
    pub wholes: Vec<WholeLock<Account<UserTurns<B>>>>,
    pub parts: Vec<Part<UserTurns<B>>>,
    pub books: Vec<Chain<Entry<TurnTaken>>>,
}
