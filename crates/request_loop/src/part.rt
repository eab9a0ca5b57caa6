//! The line that is being read.

ghost use Rattle.std.specs.Prelude.{◌≡◌, ◌≢◌, ◌≤◌, ℕ, false, List, [], ◌∷◌, ◌++◌, vec_len, vec_capacity, IfOk, MatchOption};
ghost use Rattle.request_loop.specs.Lines.{line_seen, seen_of};
ghost use Rattle.request_loop.specs.Cut.{KeepsLine};

use crate::Line;
use std::alloc::{AllocError, Global};

/// The most bytes of a line, its line feed not among them.
const MAX_LINE: usize = 100_000;

// What has come of a line, or that it is too long by now.
#[derive(Drop)]
pub(crate) struct Part {
    pub(crate) bytes: Vec<u8>,
    pub(crate) is_long: bool,
    ghost room: { 100000 ≤ vec_capacity bytes },
    ghost within: { vec_len bytes ≤ 100000 },
}

impl Part {
    // A line of which nothing has come, with room for the longest.
    pub(crate) fn new(alloc: Global) -> Result<Part, AllocError>
        ensures value { IfOk result (λ part. KeepsLine part.is_long part.bytes.items []) }
    {
        let bytes = Vec::with_capacity(alloc, MAX_LINE)?;
        Ok(Part {
            bytes,
            is_long: false,
        })
    }

    // The line, once a line feed has come.
    pub(crate) fn line(&self) -> Line<'_>
        ensures { (line : List ℕ) → KeepsLine self.now.is_long self.now.bytes.items line → line_seen result ≡ seen_of line }
    {
        if self.is_long {
            Line::TooLong
        } else {
            Line::Whole(&self.bytes)
        }
    }

    // The line at the end of the input, where one has begun.
    pub(crate) fn last_line(&self) -> Option<Line<'_>>
        ensures { (line : List ℕ) → KeepsLine self.now.is_long self.now.bytes.items line
            → MatchOption result (line ≡ []) (λ last. (line ≢ []) × (line_seen last ≡ seen_of line)) }
    {
        if !self.is_long && self.bytes.is_empty() {
            None
        } else {
            Some(self.line())
        }
    }

    // Begins the next line.
    pub(crate) fn clear(&mut self)
        ensures { KeepsLine self.new.is_long self.new.bytes.items [] }
    {
        self.bytes.clear();
        self.is_long = false;
    }

    // Takes one more byte of the line.
    pub(crate) fn add(&mut self, byte: u8)
        ensures { (line : List ℕ) → KeepsLine self.old.is_long self.old.bytes.items line
            → KeepsLine self.new.is_long self.new.bytes.items (line ++ byte ∷ []) }
    {
        if self.is_long {
            return;
        }
        if self.bytes.len() == MAX_LINE {
            self.is_long = true;
        } else {
            let _ = self.bytes.push(byte);
        }
    }
}
