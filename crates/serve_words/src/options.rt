//! What the words ask.

ghost use Rattle.std.specs.Prelude.{◌≡◌, ◌⊎◌, ◌≤◌, length, map, option_map, string_bytes, Ok, Err, Some, None, MatchResult, IfOk};
ghost use Rattle.serve_words.specs.Words.{asked, asked_by, asked_behind, is_dir, clients_asked, cost_asked};
ghost use Rattle.serve_words.specs.Limits.{answer_to, first_client, client_count, seen_of};

use crate::accounts::{are_account_names, each_once};
use crate::fault::UsageFault;
use crate::flags::options_at;
use crate::number::{clients_of, cost_of};
use ct_bytes::Text;
use std::alloc::Global;

/// The most accounts of a run.
const MAX_ACCOUNTS: usize = 64;

/// The most clients of a run.
const MAX_CLIENTS: u64 = 16;

/// The cost exponent of a derivation where no option names it.
const USUAL_COST: u8 = 14;

/// What `serve` is asked.
#[derive(Debug, Drop)]
pub struct ServeOptions {
    /// How many clients, at most 16: clients 1 to this number, or client 0 alone where it is 0.
    pub clients: u32,
    /// The cost exponent of a derivation, from 1 to 16.
    pub cost: u8,
    /// The directory, as it is written.
    pub dir: Text,
    /// At most 64 account names, each once, in the order given.
    pub accounts: Vec<Text>,
}

impl ServeOptions {
    /// The number of the first client.
    pub fn first_client(&self) -> u32
        ensures value { result ≡ first_client self.now.clients }
    {
        if self.clients == 0 { 0 } else { 1 }
    }

    /// How many clients are served.
    pub fn client_count(&self) -> u32
        ensures value { result ≡ client_count self.now.clients }
    {
        self.clients.max(1)
    }
}

// Words of the grammar, apart: the clients, the cost, the directory, and the names as they stand.
#[derive(Clone, Copy)]
struct Parts<'a> {
    clients: u64,
    cost: u8,
    dir: &'a str,
    names: &'a [String],
}

// The number of clients that is asked.
fn clients_asked(digits: Option<&[u8]>) -> Option<u64>
    ensures { result ≡ clients_asked (option_map (λ value. value.now) digits.entry) }
{
    match digits {
        Some(digits) => clients_of(digits),
        None => Some(0),
    }
}

// The cost that is asked.
fn cost_asked(digits: Option<&[u8]>) -> Option<u8>
    ensures { result ≡ cost_asked (option_map (λ value. value.now) digits.entry) }
{
    match digits {
        Some(digits) => cost_of(digits),
        None => Some(USUAL_COST),
    }
}

// Whether this is a directory, and no option.
fn is_dir(dir: &str) -> bool
    ensures { result ≡ is_dir dir.now }
{
    match dir.as_bytes().first() {
        None => false,
        Some(byte) => *byte != b'-',
    }
}

// The parts of the words behind the options.
fn parts_behind(clients: u64, cost: u8, words: &[String]) -> Option<Parts<'_>>
    ensures { option_map
        (λ parts. asked parts.clients parts.cost parts.dir.now (map string_bytes parts.names.now)) result
        ≡ asked_behind clients cost (map string_bytes words.now) }
{
    let (dir, names) = words.split_first()?;
    if is_dir(dir.as_str()) && are_account_names(names) {
        Some(Parts {
            clients,
            cost,
            dir: dir.as_str(),
            names,
        })
    } else {
        None
    }
}

// The parts of all words, where they are in the grammar.
fn parts_of(words: &[String]) -> Option<Parts<'_>>
    ensures { option_map
        (λ parts. asked parts.clients parts.cost parts.dir.now (map string_bytes parts.names.now)) result
        ≡ asked_by (map string_bytes words.now) }
{
    let (command, rest) = words.split_first()?;
    if command.as_str() != "serve" {
        return None;
    }
    let options = options_at(rest);
    let clients = clients_asked(options.clients)?;
    let cost = cost_asked(options.cost)?;
    parts_behind(clients, cost, options.rest)
}

/// What the words after the program's name ask (docs/PROTOCOL.md, "Command line of several accounts and clients").
///
/// The faults, in order: `BadWords` where the words aren't in the grammar, `TooMany` where they name more than
/// 64 different accounts or ask for more than 16 clients, with both numbers. `NoMemory` may come in place of
/// any answer but `BadWords`.
pub fn serve_options(alloc: Global, words: &[String]) -> Result<ServeOptions, UsageFault>
    ensures exact { MatchResult result
        (λ options. answer_to (map string_bytes words.now) ≡ Ok (seen_of options))
        (λ fault. (fault ≡ UsageFault.NoMemory) ⊎ (answer_to (map string_bytes words.now) ≡ Err fault)) }
    // Bad words are told as such, whatever memory there is.
    ensures bad_words { asked_by (map string_bytes words.now) ≡ None → result ≡ Err UsageFault.BadWords }
{
    let Some(parts) = parts_of(words) else {
        return Err(UsageFault::BadWords);
    };
    let accounts = each_once(alloc, parts.names)?;
    if accounts.len() > MAX_ACCOUNTS || parts.clients > MAX_CLIENTS {
        return Err(UsageFault::TooMany {
            accounts: accounts.len() as u64,
            clients: parts.clients,
        });
    }
    Ok(ServeOptions {
        clients: parts.clients as u32,
        cost: parts.cost,
        dir: Text::from_str(alloc, parts.dir)?,
        accounts,
    })
}
