//! The chip core: a machine that answers for low-entropy credentials.
#![tactic(auto)]

mod bytes;
mod call;
mod change;
mod host_laws;
mod laws;
mod open;
mod reply;
mod step;
mod word_laws;
mod words;

pub use bytes::{WORDS_BYTES, WordsFault};
pub use call::Call;
pub use host_laws::{standing_leaf_is_answered, unused_label_is_given};
pub use laws::{chip_law, count_law, leaf_law, newest_entry_tells};
pub use reply::Reply;
pub use step::Chip;
pub use word_laws::{
    accepted_words_are_written, kept_words_stay_kept, reached_step_by_step, reached_words_are_read,
    written_words_are_read,
};
pub use words::Words;
