//! An account's seat of the platform's lock.

ghost use Rattle.std.specs.Prelude.{◌≡◌, ◌≤◌, OnOk, OnErr, vec_len};

use crate::device::Device;
use crate::shared::SharedDevice;
use ct_bytes::NoMemory;
use fault_count::FaultCount;
use share_api::{Op, Reply, Step};
use std::alloc::Global;
use std::marker::Model;
use turn_lock::{Link, Seat};

/// An account's seat of the platform's lock, with memory for steps to come, and the count of the account's steps
/// that failed.
///
/// It lasts for a run, and is with an `AccountShare` for the length of a turn. Contracts see the lock's seat, the
/// count, and for how many steps there is memory.
#[derive(Drop)]
pub struct AccountSeat<D: Device> {
    pub(crate) seat: Seat<SharedDevice<D>>,
    pub(crate) account: u8,
    pub(crate) links: Vec<Link<Step>>,
    pub(crate) faults: FaultCount,
}

impl<D: Device> Model for AccountSeat<D> {
    ghost use Rattle.std.specs.Prelude.{◌≡◌, vec_len};
    ghost use Rattle.platform_lock.specs.Seats.{AccountView};

    ghost Value = { AccountView };

    ghost view = { λ own. record { seat = own.seat; faults = own.faults; spare = vec_len own.links } };

    ghost invariant = { λ own. own.seat.caller ≡ own.account };
}

impl<D: Device> AccountSeat<D> {
    ghost use Rattle.std.specs.Prelude.{◌≡◌, ◌<◌};

    /// The account's seat of the lock. Its caller number is the account's.
    pub fn new(alloc: Global, seat: Seat<SharedDevice<D>>) -> AccountSeat<D>
        requires { seat.caller < 256 }
        ensures value { result ≡ record { seat = seat; faults = 0; spare = 0 } }
    {
        let account = seat.caller() as u8;
        AccountSeat {
            seat,
            account,
            links: Vec::new(alloc),
            faults: FaultCount::new(),
        }
    }

    /// The lock's seat, to be joined with others. What else there is is let go.
    pub fn into_seat(self) -> Seat<SharedDevice<D>>
        ensures value { result ≡ self.seat }
    {
        let AccountSeat {
            seat,
            account: _,
            links: _links,
            faults: _faults,
        } = self;
        seat
    }
}

// A link with an entry that says nothing yet.
fn blank_link(alloc: Global, account: u8) -> Result<Link<Step>, NoMemory> {
    Link::new(
        alloc,
        Step {
            account,
            moment: 0,
            op: Op::Names,
            reply: Reply::NoMemory,
        },
    )
}

// Takes links until there are so many. Where there is no memory, some may have been taken.
fn fill_links(
    alloc: Global,
    links: &mut Vec<Link<Step>>,
    account: u8,
    wanted: usize,
) -> Result<(), NoMemory>
    ensures filled { OnOk result (wanted ≤ vec_len links.new) }
    ensures more { vec_len links.old ≤ vec_len links.new }
{
    for _ in links.len()..wanted {
        let link = blank_link(alloc, account)?;
        links.push(link)?;
    }
    Ok(())
}

/// Takes links until there are so many. Where there is no memory, none is taken.
pub(crate) fn stock_links(
    alloc: Global,
    links: &mut Vec<Link<Step>>,
    account: u8,
    wanted: usize,
) -> Result<(), NoMemory>
    ensures stocked { OnOk result (wanted ≤ vec_len links.new) }
    ensures more { vec_len links.old ≤ vec_len links.new }
    ensures kept { OnErr result (vec_len links.new ≡ vec_len links.old) }
{
    let had = links.len();
    let filled = fill_links(alloc, links, account, wanted);
    if filled.is_err() {
        links.truncate(had);
    }
    filled
}
