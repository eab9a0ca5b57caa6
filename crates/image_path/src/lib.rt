//! What crashes leave after any list of device steps, failed ones among them, and which place of the books that is.
#![tactic(auto)]

mod laws;
mod shown;

pub use laws::{
    every_image_is_at_one_place, first_images_show_the_first_contents, images_go_on_by_a_step,
    images_go_on_by_a_step_that_may_be_undone, images_stay_where_nothing_is_shown_anew,
};
pub use shown::ImageParts;
