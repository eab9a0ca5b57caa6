//! Clients whose lines wait for what others were answered.

use crate::sign::{Sign, Signs};
use fault_count::{Failed, FaultCount};
use request_loop::Source;

/// A line of a client: the sign that it waits for, its text with the line feed, and the sign that is given when it has
/// been answered.
pub type Line = (Option<Sign>, &'static str, Option<Sign>);

/// Lines, of which each read gives one. The loop asks for the next only after the reply to the last was written.
#[derive(Drop)]
pub struct WaitingSource<'a> {
    signs: &'a Signs,
    lines: &'a [Line],
    at: usize,
    last: Option<Sign>,
    faults: FaultCount,
}

impl<'a> WaitingSource<'a> {
    /// The source of these lines, each with its line feed.
    pub fn new(signs: &'a Signs, lines: &'a [Line]) -> WaitingSource<'a> {
        WaitingSource {
            signs,
            lines,
            at: 0,
            last: None,
            faults: FaultCount::new(),
        }
    }
}

impl<'a> Source for WaitingSource<'a> {
    ghost use Rattle.std.specs.Prelude.{None};

    ghost left = { λ source. None };

    ghost faults = { λ source. source.faults };

    // It fails where a sign doesn't come, or a line is longer than the room.
    fn read(&mut self, buf: &mut [u8]) -> Result<usize, Failed> {
        if let Some(sign) = self.last.take() {
            self.signs.give(sign);
        }
        let Some((waits, text, answered)) = self.lines.get(self.at) else {
            return Ok(0);
        };
        if let Some(sign) = waits {
            if !self.signs.comes(*sign) {
                return Err(self.faults.raise());
            }
        }
        let bytes = text.as_bytes();
        if bytes.len() > buf.len() {
            return Err(self.faults.raise());
        }
        buf[..bytes.len()].copy_from_slice(bytes);
        self.last = *answered;
        self.at += 1;
        Ok(bytes.len())
    }
}
