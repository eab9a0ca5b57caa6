//! A ticket lock, which keeps with its value the chain of the entries that its callers left.
#![tactic(auto)]

mod held;
mod lock;
mod seat;
mod slot;
mod spare;
mod steps;
mod table;
mod tale;
mod turn;

pub use ct_bytes::NoMemory;
pub use held::{Held, HeldOf};
pub use link_chain::{Chain, Link};
pub use lock::Turnstile;
pub use seat::{Receipt, Seat, SeatOf};
pub use tale::Tale;
