//! Who answers the lines of a client.

ghost use Rattle.std.specs.Prelude.{◌≡◌, ◌≤◌, List, [], ◌∷◌, ◌++◌, vec_capacity};
ghost use Rattle.request_loop.specs.Lines.{line_seen};
ghost use Rattle.request_loop.specs.Exchange.{Exchange};

use crate::Line;

/// A service that answers each line by a reply.
pub trait Service {
    /// Since it was the first of these services, the second has answered these lines so, and no others.
    ghost answered: { Self → Self → List Exchange → Type 0 };

    /// Puts the reply to `line`, without a line feed, into `reply`.
    ///
    /// `reply` is empty and has room for 256 bytes, so that an answer for want of memory needs none.
    fn answer(&mut self, line: Line<'_>, moment: u64, reply: &mut Vec<u8>)
        requires empty { reply.old.items ≡ [] }
        requires room { 256 ≤ vec_capacity reply.old }
        ensures room { 256 ≤ vec_capacity reply.new }
        // The line, its moment and its reply stand behind those before.
        ensures answered { (start : Self) (earlier : List Exchange)
            → answered start self.old earlier → answered start self.new
            (earlier ++ record { line = line_seen line.entry; moment = moment; reply = reply.new.items } ∷ []) };
}
