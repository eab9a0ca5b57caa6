//! An account's share of the platform behind its lock, for the length of a turn.

use crate::answer::Answer;
use crate::device::Device;
use crate::seat::{AccountSeat, stock_links};
use crate::shared::{Shared, SharedDevice};
use crate::turn::{Asked, step_in_turn};
use ct_bytes::{Blob, NoMemory};
use fault_count::FaultCount;
use pw_path::{Hash, Label};
use record_names::RecordName;
use share_api::{LeafView, NewLeaf, Op, Share, ShareFault, Step, TryAnswer, Write};
use std::alloc::Global;
use std::marker::Model;
use std::sync::Wait;
use turn_lock::{Link, Seat};

/// The share of one account for the length of a turn.
///
/// Its steps are the entries of the account's seat, each at its place in the chain of all accounts' steps, and its
/// faults are the account's own steps that failed. Its place is 0 until the turn makes a step. The lock is taken for
/// one step at a time.
#[derive(Drop)]
pub struct AccountShare<'a, R: Wait, D: Device> {
    rt: &'a R,
    alloc: Global,
    lock: &'a Shared<D>,
    // It is away only while a step is made.
    seat: Option<Seat<SharedDevice<D>>>,
    account: u8,
    links: Vec<Link<Step>>,
    faults: FaultCount,
    place: u64,
}

impl<'a, R: Wait, D: Device> Model for AccountShare<'a, R, D> {
    ghost use Rattle.std.specs.Prelude.{vec_len};
    ghost use Rattle.platform_lock.specs.Seats.{ShareView, IsSeated};

    ghost Value = { ShareView };

    ghost view = { λ share. record {
      device = D.seen share.lock.now.first.device;
      lock = share.lock.now.id;
      seat = share.seat;
      account = share.account;
      place = share.place;
      faults = share.faults;
      spare = vec_len share.links;
    } };

    ghost invariant = { λ share. IsSeated (D.seen share.lock.now.first.device) share.lock.now.id share.account
        share.seat };
}

impl<'a, R: Wait, D: Device> AccountShare<'a, R, D> {
    ghost use Rattle.std.specs.Prelude.{◌≡◌, ◌≤◌, ◌<◌, ◌^◌, Some};
    ghost use Rattle.platform_lock.specs.Answers.{IsAsked};
    ghost use Rattle.platform_lock.specs.Devices.{HasAccount, owner_at};
    ghost use Rattle.platform_lock.specs.Seats.{AnswersStep, IsSameShare, new_share, seen_of};

    /// The share of the account whose seat it is. Steps that only read take memory from `alloc`.
    pub fn new(
        rt: &'a R,
        alloc: Global,
        lock: &'a Shared<D>,
        own: AccountSeat<D>,
    ) -> AccountShare<'a, R, D>
        requires of { own.seat.lock ≡ lock.now.id }
        requires account { HasAccount (D.seen lock.now.first.device) own.seat.caller }
        ensures value { result ≡ new_share (D.seen lock.now.first.device) own }
    {
        let AccountSeat {
            seat,
            account,
            links,
            faults,
        } = own;
        AccountShare {
            rt,
            alloc,
            lock,
            seat: Some(seat),
            account,
            links,
            faults,
            place: 0,
        }
    }

    /// The account's seat, with the steps that the turn made.
    pub fn into_seat(self) -> AccountSeat<D>
        ensures seat { self.entry.seat ≡ Some result.seat }
        ensures faults { result.faults ≡ self.entry.faults }
        ensures spare { result.spare ≡ self.entry.spare }
    {
        let AccountShare {
            rt: _,
            alloc: _,
            lock: _,
            seat,
            account,
            links,
            faults,
            place: _,
        } = self;
        AccountSeat {
            seat: seat.unwrap(),
            account,
            links,
            faults,
        }
    }

    // One device step, as an entry of the account's seat. It takes a link that was stocked.
    fn step(&mut self, alloc: Global, moment: u64, op: Op) -> Result<Answer, ShareFault>
        requires spare { 1 ≤ self.old.spare }
        requires moment { moment < 2 ^ 40 }
        requires asked { IsAsked (owner_at self.old.device self.old.account) op }
        ensures made { AnswersStep (seen_of self.old) (seen_of self.new) moment op result }
        ensures goes { IsSameShare self.old self.new }
    {
        let seat = self.seat.take().unwrap();
        let link = self.links.pop().unwrap();
        let asked = Asked {
            account: self.account,
            moment,
            op,
        };
        let (seat, receipt, answer) = step_in_turn(self.rt, alloc, self.lock, seat, link, asked);
        self.seat = Some(seat);
        self.place = receipt.place.wrapping_add(1);
        if let Err(ShareFault::Failed) = &answer {
            let _ = self.faults.raise();
        }
        answer
    }
}

impl<'a, R: Wait, D: Device> Share for AccountShare<'a, R, D> {
    ghost use Rattle.platform_lock.specs.Seats.{IsSameShare, seen_of};
    ghost use Rattle.platform_lock.specs.SameShare.{same_share_itself, same_share_then};

    ghost seen = { seen_of };

    ghost goes = { IsSameShare };

    ghost goes_nowhere = { same_share_itself };

    ghost goes_on = { same_share_then };

    fn stock(&mut self, alloc: Global, turns: usize) -> Result<(), NoMemory> {
        stock_links(alloc, &mut self.links, self.account, turns)
    }

    fn names(&mut self, alloc: Global) -> Result<Vec<RecordName>, ShareFault> {
        let answer = self.step(alloc, 0, Op::Names)?;
        Ok(answer.into_names())
    }

    fn get(&mut self, alloc: Global, name: &RecordName) -> Result<Option<Blob>, ShareFault> {
        let answer = self.step(alloc, 0, Op::Get(*name))?;
        Ok(answer.into_found())
    }

    fn put(&mut self, name: &RecordName, bytes: Blob) -> Result<(), ShareFault> {
        let alloc = self.alloc;
        self.step(alloc, 0, Op::Do(Write::Put(*name, bytes)))?;
        Ok(())
    }

    fn remove(&mut self, name: &RecordName) -> Result<(), ShareFault> {
        let alloc = self.alloc;
        self.step(alloc, 0, Op::Do(Write::Remove(*name)))?;
        Ok(())
    }

    fn insert_leaf(&mut self, leaf: &NewLeaf, moment: u64) -> Result<Label, ShareFault> {
        let alloc = self.alloc;
        let answer = self.step(alloc, moment, Op::InsertLeaf(*leaf))?;
        Ok(answer.into_label())
    }

    fn try_leaf(&mut self, label: Label, les: &Hash, moment: u64) -> Result<TryAnswer, ShareFault> {
        let alloc = self.alloc;
        let answer = self.step(alloc, moment, Op::TryLeaf(label, *les))?;
        Ok(answer.into_tried())
    }

    fn reset_leaf(&mut self, label: Label, reset: &Hash, moment: u64) -> Result<bool, ShareFault> {
        let alloc = self.alloc;
        let answer = self.step(alloc, moment, Op::ResetLeaf(label, *reset))?;
        Ok(answer.into_fits())
    }

    fn remove_leaf(&mut self, label: Label, moment: u64) -> Result<(), ShareFault> {
        let alloc = self.alloc;
        self.step(alloc, moment, Op::Do(Write::RemoveLeaf(label)))?;
        Ok(())
    }

    fn leaf(&mut self, label: Label) -> Result<Option<LeafView>, ShareFault> {
        let alloc = self.alloc;
        let answer = self.step(alloc, 0, Op::LookLeaf(label))?;
        Ok(answer.into_view())
    }

    fn place(&self) -> u64 {
        self.place
    }

    fn spare(&self) -> usize {
        self.links.len()
    }
}
