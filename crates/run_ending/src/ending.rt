//! The endings of a run.

ghost use Rattle.std.specs.Prelude.{◌≡◌, ◌+◌, ◌≤◌, ◌++◌, vec_len, vec_capacity};
ghost use Rattle.run_ending.specs.Ending.{status_of, text_of};

use crate::said::{say, say_number};
use record_names::RecordName;

/// The bytes that the text of an ending takes at most: `damaged `, the longest name of a record, which
/// has 166 bytes, and a line feed.
pub const SAID_ROOM: usize = 8 + 166 + 1;

/// How a run came to its end (docs/PROTOCOL.md, "Statuses").
#[derive(Debug, Drop)]
pub enum Ending {
    /// The clients' input was read to its end, and each reply was written.
    Served,
    /// The words aren't in the grammar.
    BadWords,
    /// The board failed while it was opened.
    BoardFault,
    /// The record of this name is outside its form.
    Damaged(RecordName),
    /// There was no memory.
    NoMemory,
    /// The source or sink of the client with this number failed, or couldn't be opened.
    ClientFault(u32),
    /// These are more accounts, or more clients, than are served.
    TooMany { accounts: u64, clients: u64 },
    /// The client with this number gave 2^32 bytes without an end.
    InputLimit(u32),
    /// The desk failed to give the entropy.
    NoEntropy,
}

impl Ending {
    /// The program's status.
    pub fn status(&self) -> u8
        ensures value { result ≡ status_of self.now }
    {
        match self {
            Ending::Served => 0,
            Ending::BadWords => 2,
            Ending::BoardFault => 3,
            Ending::Damaged(_) => 4,
            Ending::NoMemory => 5,
            Ending::ClientFault(_) => 6,
            Ending::TooMany { .. } => 7,
            Ending::InputLimit(_) => 8,
            Ending::NoEntropy => 9,
        }
    }

    /// Says its text behind what was said, without taking memory. `said` has `SAID_ROOM` bytes of room left.
    #[tactic(auto, using(crate::proofs::Digits::at_most_twenty))]
    pub fn say(&self, said: &mut Vec<u8>)
        requires room { vec_len said.old + 175 ≤ vec_capacity said.old }
        ensures said { said.new.items ≡ said.old.items ++ text_of self.now }
    {
        match self {
            Ending::Served => {}
            Ending::BadWords => say(said, "bad words\n"),
            Ending::BoardFault => say(said, "board fault\n"),
            Ending::Damaged(name) => {
                say(said, "damaged ");
                say(said, name.as_str());
                say(said, "\n");
            }
            Ending::NoMemory => say(said, "no memory\n"),
            Ending::ClientFault(client) => {
                say(said, "client fault ");
                say_number(said, u64::from(*client));
                say(said, "\n");
            }
            Ending::TooMany { accounts, clients } => {
                say(said, "too many accounts ");
                say_number(said, *accounts);
                say(said, " clients ");
                say_number(said, *clients);
                say(said, "\n");
            }
            Ending::InputLimit(client) => {
                say(said, "input limit ");
                say_number(said, u64::from(*client));
                say(said, "\n");
            }
            Ending::NoEntropy => say(said, "no entropy\n"),
        }
    }
}
