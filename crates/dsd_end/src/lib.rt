//! One end, and two ends over one cable: what their runs and lives are, what a poll does, and that two lives agree.
#![tactic(auto)]

mod end;
mod end_core;
mod fault;
mod laws;
mod machine;
mod opening;
mod saying;
mod turn_laws;

pub use end::{End, MOST_POLLS, Turn};
pub use end_core::EndCore;
pub use fault::{EndFault, NOISE_BYTES};
pub use laws::{
    lives_agree, lives_leave_backed_lists, seals_come_from_one_set, spoken_blocks_are_frames,
};
pub use opening::open_end;
pub use turn_laws::{
    entries_grow_along_polls, polls_are_lined, polls_have_one_outcome, polls_join,
    polls_make_a_run, runs_so_far_go_on,
};
