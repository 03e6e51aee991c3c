//! The worlds in which a clean session is played: definitions and laws alone, which no program calls.
//!
//! What they say: a frame that is fed to a running end of a world, whose steps are those that its table says and of which no call
//! fails, is heard whole, as a session in which every frame is delivered has it, and what the end says at it waits for the other end.
//! A round of a clean event with one waiting frame is so a step of the hall of a clean session; and a clean event between two ends whose ids
//! match is a whole clean session, from both openings over what the journals hold, to the end at which both ends are complete. Where
//! these are legal lists that back each other, it heals: both ends have the same sets of each delivery behind it, final at both where one is an
//! acceptance.
//!
//! A world that has played a script whose last event is a clean one comes so to it, whatever the events before and whatever failed in them. The lists that
//! any events leave back each other, where the script names no bytes to be heard and no sets clash: so each such event heals what any history left, and the
//! image of each end then holds what the session leaves at its desk.
//!
//! That the event goes well, so that no fault is answered and no call of it is refused, fails or stops, follows where nothing is armed before it that has not
//! fallen, and the journals have room for what is signed and taken in it. It can be foretold, from what both journals hold as the event opens its ends and from
//! what both ends choose: where own turns from these lists speak few blocks and find room, the event goes well, and both ends finish.
#![tactic(auto)]

mod ending_laws;
mod fault_laws;
mod finishing_laws;
mod frame_laws;
mod healing_laws;
mod history_laws;
mod image_laws;
mod round_laws;
mod session_laws;
mod settling_laws;
mod world_laws;

pub use ending_laws::clean_endings_settle;
pub use fault_laws::{
    runs_with_room_are_never_full, spared_calls_go_well, unarmed_scripts_leave_nothing_armed,
    unhindered_events_go_well, unhindered_worlds_end_well,
};
pub use finishing_laws::{foreseen_events_go_well, foretold_endings_finish};
pub use frame_laws::frames_are_taken_whole;
pub use healing_laws::{healed_deliveries_are_final, worlds_heal};
pub use history_laws::{fronts_begin_lives, histories_leave_backed_lists};
pub use image_laws::{images_are_settled, images_hold_what_a_session_leaves};
pub use round_laws::rounds_are_clean_steps;
pub use session_laws::{
    clean_events_are_clean_sessions, clean_events_have_few_turns, rounds_are_a_clean_session,
};
pub use settling_laws::clean_events_settle_deliveries;
pub use world_laws::{
    clean_sessions_leave_both_complete, running_ends_can_hear, worlds_end_in_clean,
};
