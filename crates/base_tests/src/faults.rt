//! The answer of a fault.

use fault_count::{Failed, FaultCount};

#[test]
fn each_fault_is_answered_as_failed(rt: HostRuntime) {
    let mut faults = FaultCount::new();
    for _ in 0..3 {
        assert!(rt; faults.raise() == Failed);
    }
}
