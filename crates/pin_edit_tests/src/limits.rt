//! Eight PINs, and a new leaf that a loaded record names already.

use crate::bench::{Bench, MOMENT, Outcome, home};
use crate::edits::{Edit, answer};
use crate::shown::{home_text, names_text};
use pw_path::Label;
use share_api::Share;
use std::alloc::Global;
use std::test;

/// Eight PINs.
const PINS: [Edit; 8] = [
    Edit::Add("p1", 1),
    Edit::Add("p2", 2),
    Edit::Add("p3", 3),
    Edit::Add("p4", 4),
    Edit::Add("p5", 5),
    Edit::Add("p6", 6),
    Edit::Add("p7", 7),
    Edit::Add("p8", 8),
];

// The edit answers so.
fn check_answer(alloc: Global, bench: &mut Bench, edit: Edit, want: &str) -> Outcome {
    let text = answer(alloc, bench, edit)?;
    if text.as_str() != want {
        return Err(test::Fail::new(text.as_str()));
    }
    Ok(())
}

#[test]
fn a_home_has_eight_pins_and_each_opens(rt: HostRuntime) -> Outcome {
    let mut bench = home(rt.alloc(), &[])?;
    for edit in PINS {
        check_answer(rt.alloc(), &mut bench, edit, "ok")?;
    }
    let text = home_text(rt.alloc(), &mut bench.share)?;
    for pin in ["p1 2 by 1 at 0 wrong 0", "p8 9 by 8 at 7 wrong 0"] {
        if !text.contains(pin) {
            return Err(test::Fail::new(text.as_str()));
        }
    }
    Ok(())
}

// The leaf at label 0 is taken away, behind what is loaded.
fn take_leaf(alloc: Global, bench: &mut Bench) -> Outcome {
    bench.share.stock(alloc, 1)?;
    let Some(first) = Label::new(0) else {
        return Err(test::Fail::new("there is no label"));
    };
    match bench.share.remove_leaf(first, MOMENT) {
        Ok(()) => Ok(()),
        Err(_) => Err(test::Fail::new("the leaf stays")),
    }
}

// A PIN is added whose new leaf gets label 0, which a loaded record names: a look, an insert and its removal.
fn check_second(alloc: Global, bench: &mut Bench) -> Outcome {
    let before = bench.share.place();
    check_answer(
        alloc,
        bench,
        Edit::Add("p2", 2),
        "ann.leaf.00000 is damaged",
    )?;
    let made = bench.share.place().wrapping_sub(before);
    let names = names_text(alloc, &mut bench.share)?;
    if made != 3 || names.as_str() != "ann.fac.main.1 ann.fac.p1.2 ann.stash " {
        return Err(test::Fail::new(format_args!("{made} steps, {names}")));
    }
    Ok(())
}

#[test]
fn two_pins_of_one_leaf_are_refused(rt: HostRuntime) -> Outcome {
    let mut bench = home(rt.alloc(), &[])?;
    check_answer(rt.alloc(), &mut bench, Edit::Add("p1", 1), "ok")?;
    take_leaf(rt.alloc(), &mut bench)?;
    check_second(rt.alloc(), &mut bench)
}
