//! Accounts that make steps on threads.

ghost use Rattle.std.specs.Prelude.{◌≡◌, ◌<◌, length};
ghost use Rattle.platform_lock.specs.Devices.{HasAccount};

use crate::device::CountingDevice;
use ct_bytes::NoMemory;
use platform_lock::{AccountSeat, AccountShare, Device, Shared, share_device};
use pw_path::Label;
use share_api::{Share, Step};
use std::alloc::Global;
use std::sync::Wait;
use std::thread;
use std::thread::Threads;
use turn_lock::Chain;

// Looks at the labels below `looks`, and tells the place after each look.
fn look_at_labels<S: Share>(
    alloc: Global,
    share: &mut S,
    looks: u16,
    places: &mut Vec<u64>,
) -> Result<(), NoMemory>
    ensures { S.goes share.old share.new }
{
    share.stock(alloc, looks as usize)?;
    for number in 0..looks {
        let Some(label) = Label::new(number) else {
            break;
        };
        let _ = share.leaf(label);
        places.push(share.place())?;
    }
    Ok(())
}

/// One turn of an account, which looks at the labels below `looks`. It tells the place after each look.
///
/// Without memory for all looks, some are not made.
pub fn look_at<R: Wait, D: Device>(
    rt: &R,
    alloc: Global,
    lock: &Shared<D>,
    own: AccountSeat<D>,
    looks: u16,
) -> (AccountSeat<D>, Vec<u64>)
    requires of { own.seat.lock ≡ lock.now.id }
    requires account { HasAccount (D.seen lock.now.first.device) own.seat.caller }
    ensures { result.0.seat ≡ record own.seat { own = result.0.seat.own } }
{
    let mut places = Vec::new(alloc);
    let mut share = AccountShare::new(rt, alloc, lock, own);
    let _all = look_at_labels(alloc, &mut share, looks, &mut places);
    (share.into_seat(), places)
}

/// Two accounts, each on a thread of its own, look at the labels below `looks`. It gives the chain of all steps, and
/// what each account was told of its places.
///
/// Without memory for the lock there is nothing.
pub fn looks_of_two<R: Threads + Wait + Sync>(
    rt: &R,
    alloc: Global,
    device: CountingDevice,
    looks: u16,
) -> Option<(Chain<Step>, Vec<u64>, Vec<u64>)>
    requires { length device.owners.items ≡ 2 }
{
    let Ok((lock, first)) = share_device(alloc, device, 2) else {
        return None;
    };
    let (zero, one) = lock.split(first);
    let zero = AccountSeat::new(alloc, zero);
    let one = AccountSeat::new(alloc, one);
    let shared = &lock;
    let ((zero, places), (one, others)) = thread::join(
        rt,
        move || -> (AccountSeat<CountingDevice>, Vec<u64>)
            requires { (zero.seat.lock ≡ shared.now.id)
                × (zero.seat.caller < length shared.now.first.device.owners.items) }
            ensures { result.0.seat ≡ record zero.seat { own = result.0.seat.own } }
        { look_at(rt, alloc, shared, zero, looks) },
        move || -> (AccountSeat<CountingDevice>, Vec<u64>)
            requires { (one.seat.lock ≡ shared.now.id)
                × (one.seat.caller < length shared.now.first.device.owners.items) }
            ensures { result.0.seat ≡ record one.seat { own = result.0.seat.own } }
        { look_at(rt, alloc, shared, one, looks) },
    );
    let seat = lock.join(zero.into_seat(), one.into_seat());
    let (_device, chain) = lock.close(seat);
    Some((chain, places, others))
}
