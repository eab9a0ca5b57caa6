//! The moments of entries, and copies.

use crate::script::entry_of;
use account_machine::{Answer, Request, Told, Turn, User};
use ct_bytes::{NoMemory, Text};
use machine_step::{a_fresh_account_has_such_moments, step};
use pw_types::Era;
use std::alloc::Global;
use std::test;

type Outcome = Result<(), test::Fail>;

/// The number that the clock gave, the entry's moment, and whether the two fit an account whose last moment
/// is 900.
const MOMENTS: &[(u64, u64, bool)] = &[
    (900, 900, true),
    (899, 900, true),
    (899, 899, false),
    (1000, 1000, true),
    (1000, 900, false),
    (1000, 1001, false),
    (0, 900, true),
    (1099511627775, 1099511627775, true),
    (1099511627776, 1099511627775, false),
    (1099511627776, 1099511627776, false),
    (1099511627776, 900, false),
    (18446744073709551615, 18446744073709551615, false),
];

// The account's last moment after an entry with this number and moment, where it is one.
fn last_after(alloc: Global, given: u64, moment: u64) -> Result<Option<u64>, NoMemory> {
    a_fresh_account_has_such_moments();
    let mut user = User::fresh(alloc, 900);
    let era = Era {
        boot: 1,
        start: 900,
    };
    let account = Text::from_str(alloc, "ann")?;
    let turn = Turn::Act(Request::Create { account });
    let entry = entry_of(given, moment, Told::Settled, turn, Answer::Ok);
    let took = step(alloc, &mut user, era, &entry);
    drop(entry);
    let last = user.last;
    drop(user);
    Ok(took?.then_some(last))
}

#[test]
fn a_moment_is_the_greater_of_the_last_and_the_given_one(rt: HostRuntime) -> Outcome {
    for (given, moment, fits) in MOMENTS {
        let last = last_after(rt.alloc(), *given, *moment)?;
        assert_eq!(rt; last, fits.then_some(*moment), "{given} at {moment}");
    }
    Ok(())
}
