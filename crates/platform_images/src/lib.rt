//! What a board's image shows of the platform with its chip, and what a step's writes make of it.
#![tactic(auto)]

mod laws;

pub use laws::{
    a_put_shows_the_step, a_removal_shows_the_step, a_replay_shows_recovery,
    a_stored_boot_shows_opening, alike_images_show_the_same, an_image_shows_one_platform,
    an_image_without_leaves_shows_its_records, each_image_of_a_step_is_storable,
    each_image_of_opening_is_shown, files_tell_the_leaves, two_writes_show_the_step,
};
