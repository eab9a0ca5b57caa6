//! Scripts: what an account takes in order.

ghost use Rattle.std.specs.Prelude.{OnOk};
ghost use Rattle.machine_step.specs.Timely.{IsTimely};

use crate::answers::{Say, Word, answer_of, text_of, token};
use crate::requests::Line::{AddMain, AddPin, Create, Start};
use crate::requests::{Line, fields_of, parts_of};
use account_machine::{Answer, Entry, Told, Turn, User};
use client_lang::parse_line;
use ct_bytes::{NoMemory, Text};
use machine_step::{a_fresh_account_has_such_moments, step, steps_keep_moments};
use name_map::Copied;
use pw_types::{Era, cut_moment};
use std::alloc::Global;
use std::mem::replace;

const FIRST: &str = "000000000000000107070707070707070707070707070707";

const SECOND: &str = "000000000000000207070707070707070707070707070707";

const THIRD: &str = "000000000000000307070707070707070707070707070707";

const FORGED: &str = "000000000000000108080808080808080808080808080808";

/// What is asked: a line with the token of the first, second or third session, or with that of the first and
/// another tail; in the first session a line with this number, or so many letters a, for its `*`; a look at a
/// label; a clearing in the first session.
#[derive(Clone, Copy)]
pub enum Ask {
    First(Line),
    Second(Line),
    Third(Line),
    Forged(Line),
    Numbered(u64, Line),
    Long(usize, Line),
    Look(Word),
    Clear,
}

/// What an account takes, at a moment in seconds.
#[derive(Clone, Copy)]
pub enum Row {
    /// This is asked, and this is answered.
    Gives(u64, Ask, Say),
    /// This is never answered.
    Bars(u64, Ask, Say),
    /// The reload tells this, and then this is answered.
    Reloads(u64, Told, Ask, Say),
    /// The reload never tells this, or this is never answered then.
    BarsReload(u64, Told, Ask, Say),
    /// The boot of this number starts at this moment and opens the account.
    Opens(u64, u64),
    /// This becomes the number of the next edition and of the next session.
    Numbers(u64),
    /// So many sessions start at 1,000, from the first number on.
    Starts(u64),
    /// At 1,000 the first session asks this for each number below the first.
    Each(u64, Line, Say),
}

/// A name, and rows that go as they say.
pub type Script = (&'static str, &'static [Row]);

/// A home with the password `main` and the PIN `pin`, and a session in which a secret was proved.
pub const SETUP: &[Row] = &[
    Row::Gives(1000, Ask::First(Create), Say::Ok),
    Row::Gives(1000, Ask::First(Start), Say::Session(1300, 1)),
    Row::Gives(1000, Ask::First(AddMain), Say::Ok),
    Row::Gives(1000, Ask::First(AddPin), Say::Ok),
];

#[derive(Drop)]
struct Account {
    era: Era,
    user: User,
}

fn act(alloc: Global, token: &str, fields: &str) -> Result<Option<Turn>, NoMemory> {
    let line = format!(in alloc; "{{\"account\":\"ann\",\"token\":\"{token}\",{fields}}}")?;
    Ok(parse_line(alloc, line.as_bytes()).ok().map(Turn::Act))
}

fn numbered(alloc: Global, number: u64, line: Line) -> Result<Option<Turn>, NoMemory> {
    let (front, back) = parts_of(line);
    let fields = format!(in alloc; "{front}{number}{back}")?;
    act(alloc, FIRST, &fields)
}

fn long(alloc: Global, count: usize, line: Line) -> Result<Option<Turn>, NoMemory> {
    let (front, back) = parts_of(line);
    let mut fields = String::from_str(alloc, front)?;
    for _ in 0..count {
        fields.push('a')?;
    }
    fields.push_str(back)?;
    act(alloc, FIRST, &fields)
}

fn look(alloc: Global, label: Word) -> Result<Turn, NoMemory> {
    Ok(Turn::Look(Text::from_str(alloc, text_of(label))?))
}

fn turn_of(alloc: Global, ask: Ask) -> Result<Option<Turn>, NoMemory> {
    match ask {
        Ask::First(line) => act(alloc, FIRST, fields_of(line)),
        Ask::Second(line) => act(alloc, SECOND, fields_of(line)),
        Ask::Third(line) => act(alloc, THIRD, fields_of(line)),
        Ask::Forged(line) => act(alloc, FORGED, fields_of(line)),
        Ask::Numbered(number, line) => numbered(alloc, number, line),
        Ask::Long(count, line) => long(alloc, count, line),
        Ask::Look(label) => Ok(Some(look(alloc, label)?)),
        Ask::Clear => Ok(Some(Turn::Clear(token(1)))),
    }
}

/// An entry of the first client, made without a device step.
pub fn entry_of(given: u64, moment: u64, told: Told, turn: Turn, answer: Answer) -> Entry {
    Entry {
        caller: 0,
        given,
        moment,
        told,
        turn,
        answer,
        place: 0,
    }
}

// The entry with this answer, where the line is a request.
fn entry_for(
    alloc: Global,
    moment: u64,
    told: Told,
    ask: Ask,
    say: Say,
) -> Result<Option<Entry>, NoMemory> {
    let turn = turn_of(alloc, ask)?;
    let answer = answer_of(alloc, say);
    answer.map(|answer| turn.map(|turn| entry_of(moment, moment, told, turn, answer)))
}

// Takes a step, where the entry is one. The account's moments stay below 2^40.
fn takes(alloc: Global, account: &mut Account, entry: &Entry) -> Result<bool, NoMemory>
    requires { IsTimely account.old.era account.old.user }
    ensures { OnOk result (IsTimely account.new.era account.new.user) }
{
    let took = step(alloc, &mut account.user, account.era, entry)?;
    steps_keep_moments();
    Ok(took)
}

// Whether this answer is taken just where it is allowed, at a moment of a clock that doesn't go back.
fn answers(
    alloc: Global,
    account: &mut Account,
    moment: u64,
    told: Told,
    ask: Ask,
    say: Say,
    allowed: bool,
) -> Result<bool, NoMemory>
    requires { IsTimely account.old.era account.old.user }
    ensures { OnOk result (IsTimely account.new.era account.new.user) }
{
    let Some(entry) = entry_for(alloc, moment, told, ask, say)? else {
        return Ok(false);
    };
    let took = takes(alloc, account, &entry);
    drop(entry);
    Ok(took? == allowed)
}

// Opens the account anew.
fn opens(alloc: Global, account: &mut Account, boot: u64, start: u64) -> Result<bool, NoMemory>
    requires { IsTimely account.old.era account.old.user }
    ensures { OnOk result (IsTimely account.new.era account.new.user) }
{
    let start = cut_moment(start);
    let durable = account.user.durable.copy()?;
    account.era = Era { boot, start };
    drop(replace(&mut account.user, User::opened(alloc, durable, start)));
    Ok(true)
}

fn set_numbers(account: &mut Account, next: u64)
    requires { IsTimely account.old.era account.old.user }
    ensures { IsTimely account.new.era account.new.user }
{
    account.user.durable.next = next;
    account.user.next_session = next;
}

// Whether so many sessions start.
fn starts(alloc: Global, account: &mut Account, count: u64) -> Result<bool, NoMemory>
    requires { IsTimely account.old.era account.old.user }
    ensures { OnOk result (IsTimely account.new.era account.new.user) }
{
    for number in 1..=count {
        let (ask, say) = (Ask::First(Start), Say::Session(1300, number));
        if !answers(alloc, account, 1000, Told::Settled, ask, say, true)? {
            return Ok(false);
        }
    }
    Ok(true)
}

// Whether each number is answered so.
fn repeats(
    alloc: Global,
    account: &mut Account,
    count: u64,
    line: Line,
    say: Say,
) -> Result<bool, NoMemory>
    requires { IsTimely account.old.era account.old.user }
    ensures { OnOk result (IsTimely account.new.era account.new.user) }
{
    for number in 0..count {
        let ask = Ask::Numbered(number, line);
        if !answers(alloc, account, 1000, Told::Settled, ask, say, true)? {
            return Ok(false);
        }
    }
    Ok(true)
}

// Whether the row goes as it says.
fn goes(alloc: Global, account: &mut Account, row: Row) -> Result<bool, NoMemory>
    requires { IsTimely account.old.era account.old.user }
    ensures { OnOk result (IsTimely account.new.era account.new.user) }
{
    match row {
        Row::Gives(moment, ask, say) => {
            answers(alloc, account, moment, Told::Settled, ask, say, true)
        }
        Row::Bars(moment, ask, say) => {
            answers(alloc, account, moment, Told::Settled, ask, say, false)
        }
        Row::Reloads(moment, told, ask, say) => {
            answers(alloc, account, moment, told, ask, say, true)
        }
        Row::BarsReload(moment, told, ask, say) => {
            answers(alloc, account, moment, told, ask, say, false)
        }
        Row::Opens(boot, start) => opens(alloc, account, boot, start),
        Row::Numbers(next) => {
            set_numbers(account, next);
            Ok(true)
        }
        Row::Starts(count) => starts(alloc, account, count),
        Row::Each(count, line, say) => repeats(alloc, account, count, line, say),
    }
}

// The first row that doesn't go as it says.
fn stops(alloc: Global, account: &mut Account, rows: &[Row]) -> Result<Option<usize>, NoMemory>
    requires { IsTimely account.old.era account.old.user }
    ensures { OnOk result (IsTimely account.new.era account.new.user) }
{
    for (at, row) in rows.iter().enumerate() {
        if !goes(alloc, account, *row)? {
            return Ok(Some(at));
        }
    }
    Ok(None)
}

// The same for the rows after those of `setup`, which go.
fn stops_after(
    alloc: Global,
    account: &mut Account,
    setup: &[Row],
    rows: &[Row],
) -> Result<Option<usize>, NoMemory>
    requires { IsTimely account.old.era account.old.user }
{
    if stops(alloc, account, setup)?.is_some() {
        return Ok(Some(0));
    }
    stops(alloc, account, rows)
}

/// The first of the rows that doesn't go as it says, after those of `setup`, from an account without a home
/// that was opened at the moment 1,000.
pub fn stops_at(alloc: Global, setup: &[Row], rows: &[Row]) -> Result<Option<usize>, NoMemory> {
    a_fresh_account_has_such_moments();
    let era = Era {
        boot: 1,
        start: 1_000,
    };
    let user = User::fresh(alloc, 1_000);
    let mut account = Account { era, user };
    let stop = stops_after(alloc, &mut account, setup, rows);
    drop(account);
    stop
}
