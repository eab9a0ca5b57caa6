//! Request lines.

ghost use Rattle.std.specs.Prelude.{◌≡◌, ◌≢◌, Err};
ghost use Rattle.serde_json.specs.View.{view};
ghost use Rattle.client_lang.specs.Lines.{request_of, request_for, request_in};

use crate::fields::text;
use crate::rows::request_by;
use account_machine::Request;
use serde_json::Value;
use std::alloc::Global;

/// The most bytes of a request line, without its line feed.
const MOST_LINE: usize = 100_000;

/// A field of a request line.
#[derive(Clone, Copy, Debug, PartialEq, Eq)]
pub enum Field {
    Account,
    Intent,
    Token,
    Seconds,
    Label,
    Secret,
    Kind,
    Schedule,
    Name,
    Data,
}

/// Why a line isn't a request. The first that applies is told.
#[derive(Clone, Copy, Debug, PartialEq, Eq)]
pub enum LineFault {
    /// The line has more than 100,000 bytes.
    TooLong,
    /// The line isn't a JSON object.
    NotJson,
    /// `op` is missing, or isn't one of the table's.
    UnknownOp,
    /// The first field of the op's row, in its order, that is missing or outside its form.
    BadField(Field),
    /// There was no memory.
    NoMemory,
}

/// The request of a line (docs/PROTOCOL.md, "All request lines").
///
/// `line` is without its line feed. The faults, in order: `TooLong`, `NotJson`, `UnknownOp`, `BadField`.
pub fn parse_line(alloc: Global, line: &[u8]) -> Result<Request, LineFault>
    ensures exact { result ≢ Err LineFault.NoMemory → result ≡ request_in line.now }
{
    if line.len() > MOST_LINE {
        return Err(LineFault::TooLong);
    }
    let value = match Value::from_slice(alloc, line) {
        Ok(value) => value,
        Err(error) if error.is_memory() => return Err(LineFault::NoMemory),
        Err(_) => return Err(LineFault::NotJson),
    };
    request_of(alloc, &value)
}

// The request of a JSON value.
fn request_of(alloc: Global, value: &Value) -> Result<Request, LineFault>
    ensures exact { result ≢ Err LineFault.NoMemory → result ≡ request_of (view value.now) }
{
    if !value.is_object() {
        return Err(LineFault::NotJson);
    }
    let Some(op) = text(value, "op") else {
        return Err(LineFault::UnknownOp);
    };
    request_by(alloc, op, value)
}
