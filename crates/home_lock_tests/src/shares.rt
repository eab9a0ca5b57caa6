//! What no contract says.

use crate::device::CountingDevice;
use crate::walk::looks_of_two;
use fault_count::FaultCount;
use pw_types::Era;
use share_api::{Op, Reply, Step};
use std::test::Fail;

// Whether the entries at these places are the account's looks at the labels from 0 on. A place counts from 1.
fn are_looks(entries: &[&Step], account: u8, places: &[u64]) -> bool {
    for (number, place) in places.iter().enumerate() {
        let Some(entry) = entries.get((*place as usize).wrapping_sub(1)) else {
            return false;
        };
        let Op::LookLeaf(label) = &entry.op else {
            return false;
        };
        if entry.account != account || label.number() as usize != number {
            return false;
        }
    }
    true
}

#[test]
fn each_step_stands_where_its_accounts_share_said(rt: HostRuntime) -> Result<(), Fail> {
    let mut owners = Vec::new(rt.alloc());
    owners.push(None)?;
    owners.push(None)?;
    let device = CountingDevice {
        owners,
        era: Era { boot: 1, start: 0 },
        faults: FaultCount::new(),
        made: 0,
        fails: 7,
    };
    let Some((chain, places, others)) = looks_of_two(&rt, rt.alloc(), device, 100) else {
        panic!(rt; "no memory for the lock")
    };
    let Ok(entries) = chain.in_order(rt.alloc()) else {
        panic!(rt; "no memory for the order")
    };
    assert!(rt; entries.len() == 200 && places.len() == 100 && others.len() == 100);
    assert!(rt; are_looks(entries.as_slice(), 0, places.as_slice()));
    assert!(rt; are_looks(entries.as_slice(), 1, others.as_slice()));
    // The seventh step of all failed, and no other.
    let failed = entries
        .iter()
        .filter(|entry| matches!(entry.reply, Reply::Failed))
        .count();
    assert!(rt; failed == 1 && matches!(entries[6].reply, Reply::Failed));
    Ok(())
}
