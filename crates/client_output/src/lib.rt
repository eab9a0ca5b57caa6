//! What a client's lines come to: their turns in the books, and their replies.
#![tactic(auto)]

mod laws;
mod line;
mod turns;

pub use laws::{
    lines_and_then_more, no_lines, one_line_without_memory, one_refused_line, one_request,
    own_entries_are_the_output, replies_tell_the_answer,
};
pub use line::let_in;
pub use turns::{has_cleared, has_seen, label_looked, token_cleared};
