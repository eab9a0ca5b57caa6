//! One call of a chip.

ghost use Rattle.std.specs.Prelude.{◌≡◌, ◌<◌, ◌^◌, Ok};
ghost use Rattle.pw_types.specs.Schedule.{limit_of};
ghost use Rattle.pw_types.specs.declared.delay.Readiness.TheVariants as delay;
ghost use Rattle.pw_leaf.specs.Contents.{new_contents};
ghost use Rattle.pw_leaf.specs.Reading.{check_at};
ghost use Rattle.pw_chip.specs.CallOf.{data_of};
ghost use Rattle.pw_chip.specs.Held.{held};
ghost use Rattle.pw_chip.specs.State.{IsSameEra};
ghost use Rattle.pw_chip.specs.Step.{
  step,
  reset_tree_step,
  insert_step,
  remove_step,
  try_step,
  reset_step,
  replay_step,
  log_reply,
  tried_when,
  after_try,
  is_replayed,
};

use crate::call::Call;
use crate::change::{note_bumped, note_cleared, note_leaf};
use crate::open::{Opened, open};
use crate::reply::Reply;
use crate::words::Words;
use pw_leaf::{NewLeafSecrets, bump, clear, make};
use pw_log::{
    INSERT, LogAnswer, LogEntry, NO_VERDICT, REMOVE, RESET, RESET_TREE, RIGHT, TRY, WRONG,
};
use pw_path::{Aux, Hash, LABELS, LEVELS, Label, empty_roots, root_of};
use pw_types::{Readiness, Schedule, Stamp, ready};

/// The value of a label that isn't used.
const NO_HASH: Hash = [0; 32];

/// The chip's calls.
pub struct Chip;

impl Chip {
    /// Makes a call at a moment, in seconds.
    ///
    /// The refusals are tested in this order. Insert: `LabelInvalid`, `PathAuthFailed`, `LabelUsed`.
    /// Remove: `LabelInvalid`, `PathAuthFailed`, `LabelEmpty`. Try: `LabelInvalid`, `LeafInvalid`,
    /// `PathAuthFailed`, `Locked`, `Delayed`, `Wrong`. Reset: `LabelInvalid`, `LeafInvalid`,
    /// `PathAuthFailed`, `ResetWrong`. GetLog: `RootUnknown`. Replay: `LabelInvalid`, `RootUnknown` where
    /// the newest entry is no try or reset of this label, `LeafInvalid`, `PathAuthFailed` against the older
    /// root, `Locked` where the leaf has no try left to count. A call that leaves the root as it is
    /// changes no word.
    ///
    /// The keys and the boot stay.
    #[tactic(auto, using(crate::proofs::EraLemmas::era_step))]
    pub fn step(words: &mut Words, call: &Call, now: u64) -> Reply
        requires { now < 2 ^ 40 }
        ensures value { step words.old (data_of call.now) now ≡ (result, words.new) }
        ensures same { IsSameEra words.old words.new }
    {
        reply_to(words, call, now)
    }
}

#[tactic(auto, unfolding(crate::specs::Step::step))]
fn reply_to(words: &mut Words, call: &Call, now: u64) -> Reply
    requires { now < 2 ^ 40 }
    ensures { step words.old (data_of call.now) now ≡ (result, words.new) }
{
    match call {
        Call::ResetTree => reset_tree(words, now),
        Call::Insert {
            label,
            aux,
            mac,
            les,
            hes,
            reset,
            schedule,
            iv,
        } => {
            let secrets = NewLeafSecrets {
                les: *les,
                hes: *hes,
                reset: *reset,
            };
            insert(words, *label, aux, mac, &secrets, schedule, *iv, now)
        }
        Call::Remove { label, aux, mac } => remove(words, *label, aux, mac, now),
        Call::Try {
            label,
            aux,
            leaf,
            les,
        } => try_leaf(words, *label, aux, leaf, les, now),
        Call::Reset {
            label,
            aux,
            leaf,
            reset,
        } => reset_leaf(words, *label, aux, leaf, reset, now),
        Call::GetLog { host } => log_reply(words, host),
        Call::Replay { label, aux, leaf } => replay(words, *label, aux, leaf),
    }
}

#[tactic(auto, unfolding(crate::specs::Step::reset_tree_step, crate::specs::State::empty_root))]
fn reset_tree(words: &mut Words, now: u64) -> Reply
    requires { now < 2 ^ 40 }
    ensures { reset_tree_step words.old now ≡ (result, words.new) }
{
    let boot = words.era().boot;
    words.note(LogEntry {
        operation: RESET_TREE,
        label: 0,
        root: empty_roots()[LEVELS],
        mac: NO_HASH,
        verdict: NO_VERDICT,
        stamp: Stamp { boot, at: now },
    });
    Reply::Done
}

#[tactic(auto, unfolding(crate::specs::Step::insert_step))]
fn insert(
    words: &mut Words,
    number: u16,
    aux: &Aux,
    mac: &Hash,
    secrets: &NewLeafSecrets,
    schedule: &Schedule,
    iv: [u8; 16],
    now: u64,
) -> Reply
    requires { now < 2 ^ 40 }
    ensures { insert_step words.old number aux.now mac.now
        (new_contents number secrets.now.les secrets.now.hes secrets.now.reset schedule.now iv) now
        ≡ (result, words.new) }
{
    let Some(label) = Label::new(number) else {
        return Reply::LabelInvalid;
    };
    if root_of(label, mac, aux) != words.root() {
        return Reply::PathAuthFailed;
    }
    if *mac != NO_HASH {
        return Reply::LabelUsed;
    }
    let leaf = make(words.keys(), label, secrets, schedule, iv);
    note_leaf(words, INSERT, NO_VERDICT, label, aux, &leaf, now);
    Reply::Inserted(leaf)
}

#[tactic(auto, unfolding(crate::specs::Step::remove_step))]
fn remove(words: &mut Words, number: u16, aux: &Aux, mac: &Hash, now: u64) -> Reply
    requires { now < 2 ^ 40 }
    ensures { remove_step words.old number aux.now mac.now now ≡ (result, words.new) }
{
    let Some(label) = Label::new(number) else {
        return Reply::LabelInvalid;
    };
    if root_of(label, mac, aux) != words.root() {
        return Reply::PathAuthFailed;
    }
    if *mac == NO_HASH {
        return Reply::LabelEmpty;
    }
    let boot = words.era().boot;
    words.note(LogEntry {
        operation: REMOVE,
        label: number,
        root: root_of(label, &NO_HASH, aux),
        mac: NO_HASH,
        verdict: NO_VERDICT,
        stamp: Stamp { boot, at: now },
    });
    Reply::Done
}

fn try_leaf(words: &mut Words, number: u16, aux: &Aux, leaf: &[u8], les: &Hash, now: u64) -> Reply
    requires { now < 2 ^ 40 }
    ensures { try_step words.old number aux.now leaf.now les.now now ≡ (result, words.new) }
{
    let opened = match open(words.keys(), &words.root(), number, aux, leaf) {
        Ok(opened) => opened,
        Err(refusal) => return refusal.reply(),
    };
    let era = words.era();
    let stamp = Stamp {
        boot: era.boot,
        at: now,
    };
    match ready(
        &opened.leaf.schedule,
        opened.leaf.wrong,
        opened.leaf.last,
        stamp,
        era.at,
    ) {
        Readiness::Locked => Reply::Locked,
        Readiness::Delayed(until) => Reply::Delayed(until),
        Readiness::Ready => tried(words, aux, &opened, les, now),
    }
}

// A try that may come.
fn tried(words: &mut Words, aux: &Aux, opened: &Opened, les: &Hash, now: u64) -> Reply
    requires checked { check_at words.old.keys opened.now.bytes ≡ Ok (held opened.now) }
    requires room { opened.now.leaf.wrong < limit_of opened.now.leaf.schedule }
    requires moment { now < 2 ^ 40 }
    ensures reply { result ≡ tried_when delay.Ready words.old.keys (held opened.now) les.now
        (record { boot = words.old.boot; at = now }) }
    ensures after { words.new ≡ after_try words.old opened.now.leaf.label aux.now (held opened.now)
        (record { boot = words.old.boot; at = now }) result }
{
    if opened.leaf.les == *les {
        let leaf = note_cleared(words, TRY, RIGHT, aux, opened, now);
        Reply::Released {
            leaf,
            hes: opened.leaf.hes,
        }
    } else {
        Reply::Wrong(note_bumped(words, aux, opened, now))
    }
}

fn reset_leaf(
    words: &mut Words,
    number: u16,
    aux: &Aux,
    leaf: &[u8],
    reset: &Hash,
    now: u64,
) -> Reply
    requires { now < 2 ^ 40 }
    ensures { reset_step words.old number aux.now leaf.now reset.now now ≡ (result, words.new) }
{
    let opened = match open(words.keys(), &words.root(), number, aux, leaf) {
        Ok(opened) => opened,
        Err(refusal) => return refusal.reply(),
    };
    if opened.leaf.reset != *reset {
        return Reply::ResetWrong;
    }
    Reply::Cleared(note_cleared(words, RESET, NO_VERDICT, aux, &opened, now))
}

fn replay(words: &Words, number: u16, aux: &Aux, leaf: &[u8]) -> Reply
    ensures { replay_step words.now number aux.now leaf.now ≡ (result, words.now) }
{
    if number >= LABELS {
        return Reply::LabelInvalid;
    }
    let entry = *words.log().newest();
    if !is_replayed(&entry, number) {
        return Reply::RootUnknown;
    }
    let opened = match open(words.keys(), &words.log().older().root, number, aux, leaf) {
        Ok(opened) => opened,
        Err(refusal) => return refusal.reply(),
    };
    if entry.verdict != WRONG {
        return Reply::Replayed(clear(words.keys(), &opened.bytes));
    }
    if opened.leaf.wrong == opened.leaf.schedule.limit() {
        return Reply::Locked;
    }
    Reply::Replayed(bump(words.keys(), &opened.bytes, entry.stamp))
}

// Whether the entry changed the leaf at the label of this number.
fn is_replayed(entry: &LogEntry, number: u16) -> bool
    ensures { result ≡ is_replayed entry.now number }
{
    (entry.operation == TRY || entry.operation == RESET) && entry.label == number
}

#[tactic(auto, unfolding(crate::specs::Step::log_reply))]
fn log_reply(words: &Words, host: &Hash) -> Reply
    ensures { result ≡ log_reply words.now host.now }
{
    match words.log().since(host) {
        LogAnswer::RootUnknown { .. } => Reply::RootUnknown,
        answer => Reply::Log(answer),
    }
}
