//! A client's lines, answered by its seat of a home.

ghost use Rattle.std.specs.Prelude.{◌≡◌, ◌≢◌, Some, Err, IfOk};
ghost use Rattle.request_loop.specs.Lines.{line_seen};
ghost use Rattle.client_output.specs.Output.{asked_by};
ghost use Rattle.request_forms.specs.Formed.{IsFormedRequest};
ghost use Rattle.client_lines.specs.Seats.{IsSeated, AreSeatsOf};

use crate::Home;
use account_machine::Request;
use client_lang::{LineFault, fault_text, parse_line, reply_text};
use client_output::let_in;
use request_loop::{Line, Service};
use std::alloc::Global;
use std::sync::Wait;

/// The service of one client.
#[derive(Drop)]
pub struct LineClient<'a, R: Wait, H: Home> {
    rt: &'a R,
    alloc: Global,
    home: &'a H,
    // It is away only during a call.
    seat: Option<H::Seat>,
    ghost seated: { IsSeated (H.seen home.now) H.bare (H.locks home.now) seat },
}

impl<'a, R: Wait, H: Home> LineClient<'a, R, H> {
    /// Serves by this seat of the home.
    pub fn new(rt: &'a R, alloc: Global, home: &'a H, seat: H::Seat) -> LineClient<'a, R, H>
        requires of { AreSeatsOf (H.locks home.now) (H.seen home.now seat).caller (H.bare seat) }
        ensures seat { result.seat ≡ Some seat }
        ensures home { result.home.now ≡ home.now }
    {
        LineClient {
            rt,
            alloc,
            home,
            seat: Some(seat),
        }
    }

    /// The seat, as it is now.
    pub fn into_seat(self) -> H::Seat
        ensures seat { self.entry.seat ≡ Some result }
        ensures of { AreSeatsOf (H.locks self.entry.home.now) (H.seen self.entry.home.now result).caller
            (H.bare result) }
    {
        self.seat.unwrap()
    }
}

// The request of a line, or why it has none.
fn asked(alloc: Global, pins: bool, line: Line<'_>) -> Result<Request, LineFault>
    ensures exact { result ≢ Err LineFault.NoMemory → result ≡ asked_by pins (line_seen line.entry) }
    ensures formed { IfOk result IsFormedRequest }
{
    let Line::Whole(bytes) = line else {
        return Err(LineFault::TooLong);
    };
    match parse_line(alloc, bytes) {
        Ok(request) => let_in(pins, request),
        Err(fault) => Err(fault),
    }
}

impl<'a, R: Wait, H: Home> Service for LineClient<'a, R, H> {
    ghost use Rattle.client_lines.specs.Seats.{Answered};

    ghost answered = { λ start now lines. (now.home.now ≡ start.home.now)
        × Answered (H.seen start.home.now) H.bare (H.pins start.home.now) start.seat now.seat lines };

    fn answer(&mut self, line: Line<'_>, moment: u64, reply: &mut Vec<u8>) {
        match asked(self.alloc, self.home.has_pins(), line) {
            Err(fault) => fault_text(&fault, reply),
            Ok(request) => {
                let seat = self.seat.take().unwrap();
                let (seat, answer) = self.home.call(self.rt, self.alloc, seat, &request, moment);
                self.seat = Some(seat);
                reply_text(&answer, reply);
            }
        }
    }
}
