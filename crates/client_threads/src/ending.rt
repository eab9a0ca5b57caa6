//! How a run ends whose clients were all served.

ghost use Rattle.std.specs.Prelude.{◌≡◌, ◌+◌, ◌^◌, ◌<◌, ℕ, length, map, IfSome};
ghost use Rattle.std.specs.List.{AllByRecursion, position};
ghost use Rattle.request_loop.specs.declared.serve.LoopEnd.TheVariants as loops;
ghost use Rattle.client_threads.specs.Ends.{is_marked, least, ends_from, status_of, IsLeast, HasNone};
ghost use Rattle.client_threads.specs.declared.ending.Mark.TheVariants as marks;

use crate::job::Job;
use request_loop::LoopEnd;

/// How serving all clients ended.
#[derive(Clone, Copy, Debug, PartialEq, Eq, Drop)]
pub enum ClientsEnd {
    /// Each input was read to its end, and all replies were written.
    Served,
    /// A client's loop had no memory to begin, and no other cause came.
    NoMemory,
    /// The least client whose source or sink failed.
    ClientFault(u32),
    /// The least client that gave 2^32 bytes without an end, where no client had a fault.
    InputLimit(u32),
}

impl ClientsEnd {
    /// The program's status.
    pub fn status(&self) -> u8
        ensures value { result ≡ status_of self.now }
    {
        match self {
            ClientsEnd::Served => 0,
            ClientsEnd::NoMemory => 5,
            ClientsEnd::ClientFault(_) => 6,
            ClientsEnd::InputLimit(_) => 8,
        }
    }
}

/// What the end of a client's loop asks of the run's end.
#[derive(Clone, Copy, Drop)]
pub enum Mark {
    Fault,
    Limit,
    Starved,
}

// Whether the loop ended so.
fn is_marked(mark: Mark, end: LoopEnd) -> bool
    ensures { result ≡ is_marked mark end }
{
    match mark {
        Mark::Fault => matches!(end, LoopEnd::SourceFault | LoopEnd::SinkFault),
        Mark::Limit => matches!(end, LoopEnd::InputLimit),
        Mark::Starved => matches!(end, LoopEnd::NoMemory),
    }
}

// The place of the first client whose loop ended so.
fn first_place<J: Job>(mark: Mark, jobs: &[J]) -> Option<usize>
    ensures place { result ≡ position (λ job. is_marked mark (J.end job)) jobs.now }
    ensures within { IfSome result (λ place. place < length jobs.now) }
{
    jobs.iter().position(|job| is_marked(mark, job.end()))
}

// The least number of a client whose loop ended so. The first client has the number `first`.
fn least<J: Job>(mark: Mark, first: u32, jobs: &[J]) -> Option<u32>
    requires { first + length jobs.now < 2 ^ 32 }
    ensures { result ≡ least mark first (map J.end jobs.now) }
{
    let place = first_place(mark, jobs)?;
    Some(first + place as u32)
}

/// How the clients ended, by the end of each one's loop. The first client has the number `first`.
///
/// A fault comes before an input limit, and that before want of memory; of several the least client is named.
pub fn ends_of<J: Job>(first: u32, jobs: &[J]) -> ClientsEnd
    requires { first + length jobs.now < 2 ^ 32 }
    ensures value { result ≡ ends_from first (map J.end jobs.now) }
    // A fault is told of the least client whose source or sink failed.
    ensures fault { (client : ℕ) → result ≡ ClientsEnd.ClientFault client
        → IsLeast marks.Fault first (map J.end jobs.now) client }
    // A limit is told of the least client that met it, where no source or sink failed.
    ensures limit { (client : ℕ) → result ≡ ClientsEnd.InputLimit client
        → IsLeast marks.Limit first (map J.end jobs.now) client × HasNone marks.Fault (map J.end jobs.now) }
    // Want of memory is told where none met either.
    ensures starved { result ≡ ClientsEnd.NoMemory
        → HasNone marks.Fault (map J.end jobs.now) × HasNone marks.Limit (map J.end jobs.now) }
    // Served were all of them, until their inputs' ends.
    ensures served { result ≡ ClientsEnd.Served → AllByRecursion (λ end. end ≡ loops.End) (map J.end jobs.now) }
{
    if let Some(client) = least(Mark::Fault, first, jobs) {
        return ClientsEnd::ClientFault(client);
    }
    if let Some(client) = least(Mark::Limit, first, jobs) {
        return ClientsEnd::InputLimit(client);
    }
    match least(Mark::Starved, first, jobs) {
        Some(_) => ClientsEnd::NoMemory,
        None => ClientsEnd::Served,
    }
}
