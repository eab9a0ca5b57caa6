//! Several accounts over one board, device step by device step.
#![tactic(auto)]

mod fault;
mod laws;
mod names;
mod opening;
mod platform;
mod records;
mod room;
mod step;
mod unsure;
mod work;

pub use fault::OpenFault;
pub use laws::{
    an_image_shows_one_contents, chain_begins, chain_goes_on_idly,
    images_of_a_settled_board_show_contents, images_since_a_run_began_show_contents,
    what_is_there_shows_contents,
};
pub use platform::Platform;
