//! Calls on a leaf, and a host that lacks the newest of them.

use label_tree::Tree;
use pin_ops::{Resync, insert, remove, reset, resync, resync_label, try_pin};
use pw_chip::{Call, Chip, Reply, Words};
use pw_leaf::{ChipKeys, LEAF_BYTES, NewLeafSecrets};
use pw_path::{Hash, Label};
use pw_types::Schedule;
use std::alloc::Global;
use std::test::Fail;

type Record = [u8; LEAF_BYTES];

const NO_RECORD: Record = [0; LEAF_BYTES];

const KEYS: ChipKeys = ChipKeys {
    mac: [1; 32],
    enc: [2; 32],
};

const SECRETS: NewLeafSecrets = NewLeafSecrets {
    les: [5; 32],
    hes: [6; 32],
    reset: [7; 32],
};

#[derive(Clone, Copy, Debug)]
enum Step {
    Insert,
    RightTry,
    WrongTry,
    Reset,
    Remove,
}

#[derive(Clone, Copy, Debug, PartialEq, Eq)]
enum Lacks {
    Nothing,
    Insert,
    Put,
    Remove,
    Everything,
    Lost,
}

/// A chip with its host's tree.
#[derive(Drop)]
struct Host {
    words: Words,
    tree: Tree,
}

fn new_host(alloc: Global) -> Result<Host, Fail> {
    let mut words = Words::new(KEYS);
    words.boot(900);
    let tree = Tree::new(alloc).ok().ok_or("no memory")?;
    Ok(Host { words, tree })
}

// One call at the label, with this record of it.
fn make(host: &mut Host, step: Step, label: Label, record: &Record) -> Reply {
    let words = &mut host.words;
    let tree = &mut host.tree;
    match step {
        Step::Insert => insert(
            words,
            tree,
            label,
            &SECRETS,
            &Schedule::usual(),
            [8; 16],
            1_000,
        ),
        Step::RightTry => try_pin(words, tree, label, record, &SECRETS.les, 1_000),
        Step::WrongTry => try_pin(words, tree, label, record, &[4; 32], 1_000),
        Step::Reset => reset(words, tree, label, record, &SECRETS.reset, 1_000),
        Step::Remove => remove(words, tree, label, 1_000),
    }
}

// The record of a reply, and the one before where it has none.
fn record_after(reply: &Reply, before: Record) -> Record {
    match reply {
        Reply::Inserted(record) | Reply::Wrong(record) | Reply::Cleared(record) => *record,
        Reply::Released { leaf, .. } => *leaf,
        _ => before,
    }
}

fn lack_in(answer: &Resync) -> Lacks {
    match answer {
        Resync::InStep => Lacks::Nothing,
        Resync::Inserted(_) => Lacks::Insert,
        Resync::Put(_, _) => Lacks::Put,
        Resync::Removed(_) => Lacks::Remove,
        Resync::Emptied => Lacks::Everything,
        Resync::Lost { .. } => Lacks::Lost,
    }
}

fn put_in(answer: &Resync) -> Option<Record> {
    match answer {
        Resync::Put(_, record) => Some(*record),
        _ => None,
    }
}

/// Calls in turn, and what a host lacks that has all calls before.
const CALLS: [(Step, Lacks); 7] = [
    (Step::Insert, Lacks::Insert),
    (Step::RightTry, Lacks::Nothing),
    (Step::WrongTry, Lacks::Put),
    (Step::RightTry, Lacks::Put),
    (Step::WrongTry, Lacks::Put),
    (Step::Reset, Lacks::Put),
    (Step::Remove, Lacks::Remove),
];

#[test]
fn each_call_is_redone_by_a_host_that_lacks_it(rt: HostRuntime) -> Result<(), Fail> {
    let label = Label::new(6_957).ok_or("no label")?;
    let mut host = new_host(rt.alloc())?;
    let mut behind = new_host(rt.alloc())?;
    let mut record = NO_RECORD;
    for (step, want) in CALLS {
        let reply = make(&mut host, step, label, &record);
        let root = host.words.log().newest().root;
        assert_eq!(rt; host.tree.root(), root, "{step:?}");
        let needed = resync_label(&host.words, &behind.tree).is_some();
        assert_eq!(rt; needed, want == Lacks::Put, "{step:?}");
        let answer = resync(&mut host.words, &mut behind.tree, Some(&record));
        record = record_after(&reply, record);
        assert_eq!(rt; lack_in(&answer), want, "{step:?}");
        assert_eq!(rt; put_in(&answer).unwrap_or(record), record, "{step:?}");
        assert_eq!(rt; behind.tree.root(), root, "{step:?}");
    }
    Ok(())
}

// A host with this tree lacks the newest entry and can't redo it: its tree stays, and both roots are told.
fn is_lost(words: Words, tree: &mut Tree, record: Option<&Record>) -> bool {
    let mut words = words;
    let before = tree.root();
    let chip = words.log().newest().root;
    let answer = resync(&mut words, tree, record);
    answer == Resync::Lost { host: before, chip } && tree.root() == before
}

#[test]
fn an_entry_that_cannot_be_redone_is_lost(rt: HostRuntime) -> Result<(), Fail> {
    let label = Label::new(3).ok_or("no label")?;
    let mut host = new_host(rt.alloc())?;
    let mut old = Tree::new(rt.alloc()).ok().ok_or("no memory")?;
    let first = record_after(&make(&mut host, Step::Insert, label, &NO_RECORD), NO_RECORD);
    old.set(label, &[9; 32]);
    assert!(rt;
        is_lost(host.words, &mut old, None),
        "neither root is the tree's"
    );
    old.set(label, &host.tree.at(label));
    let second = record_after(&make(&mut host, Step::WrongTry, label, &first), first);
    assert!(rt;
        is_lost(host.words, &mut old, None),
        "the record of a try isn't there"
    );
    assert!(rt;
        is_lost(host.words, &mut old, Some(&second)),
        "the record is the new one"
    );
    let third = make(&mut host, Step::WrongTry, label, &second);
    assert_ne!(rt; record_after(&third, second), second);
    assert!(rt;
        is_lost(host.words, &mut old, Some(&first)),
        "an old record under the same chip"
    );
    Ok(())
}

#[test]
fn a_reset_tree_is_redone_over_one_record_alone(rt: HostRuntime) -> Result<(), Fail> {
    for (count, want) in [(1u16, Lacks::Everything), (2, Lacks::Lost)] {
        let mut host = new_host(rt.alloc())?;
        for number in 0..count {
            let label = Label::new(number).ok_or("no label")?;
            let reply = make(&mut host, Step::Insert, label, &NO_RECORD);
            assert_ne!(rt; record_after(&reply, NO_RECORD), NO_RECORD);
        }
        let reply = Chip::step(&mut host.words, &Call::ResetTree, 1_000);
        assert_eq!(rt; reply, Reply::Done);
        let answer = resync(&mut host.words, &mut host.tree, None);
        assert_eq!(rt; lack_in(&answer), want, "{count} records");
    }
    Ok(())
}
