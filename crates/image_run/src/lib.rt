//! What the commands over an opened image come to: a run of a trace, recovery made in place, a
//! replay of a schedule, what a closed or a foreign image shows. Each makes the image that is put,
//! if any, and the text that is printed.
#![tactic(auto)]

mod conservative;
mod counted;
mod counting;
mod fault;
mod laws;
mod lines;
mod options;
mod product;
mod rebuilding;
mod recovering;
mod replaying;
mod reporting;
mod running;

pub use conservative::conservative_text;
pub use counted::what_anchors_show_is_counted_as_recovered;
pub use counting::count_text;
pub use fault::ReplayFault;
pub use laws::{
    a_replay_has_one_outcome, a_run_over_what_recovery_leaves_is_one_over_the_image,
    a_run_without_a_refusal_is_that_of_one_thread, a_stopped_rebuild_settles_words_by_chance_alone,
    a_superblock_that_a_run_never_took_stays_as_it_was, an_image_is_recovered_in_one_way,
    enough_budget_and_room_are_known, runs_without_a_refusal_are_alike,
    what_a_rebuild_puts_can_be_recovered, what_a_run_puts_can_be_run_again,
};
pub use options::{MOST_BUDGET, MOST_WORKERS, RunOptions};
pub use product::Product;
pub use rebuilding::rebuild_image;
pub use replaying::replay_image;
pub use reporting::recovered_text;
pub use running::run_image;
