//! Clean sessions, in which every frame is delivered: definitions and laws alone, which no program calls.
//!
//! What they say: the two turns with the headers and the turns of texts on the line, frame by frame; how many blocks a
//! transmission has beside its sets; the polls of two ends that hear every frame whole, from their opening over any
//! entries to the end of the session at both; and one delivery over these turns, as plain data: two lists hold fronts of
//! one course, no set is spoken more than twice and from empty lists each once, and behind two turns in a row in which
//! nothing of it is due both ends have its whole course.
//!
//! An own turn, as the program's ends take it, is a turn of the course of each delivery, where the end goes on with the
//! course; and it leaves both lists as the next turn finds them. Own turns come to an end: each that speaks leaves less to
//! be spoken. Behind two in a row in which nothing is due both lists have the same sets of each delivery, whatever the
//! ends chose, and a delivery is final at both where it has an acceptance. What is spoken has at most twice the blocks of
//! what both ends have then signed of each delivery, from its last set before the session on; from two empty lists each
//! set is spoken once.
//!
//! Without an acceptance a delivery awaits one of both ends, and that end has declined it: in its last own turn its choices
//! gave no answer that it may sign. So it is of a draft whose delivery is still new.
//!
//! A session over any legal lists that back each other, with its frames, polls and turns up to the second in succession
//! without a block, is such a row of own turns: so all this is said of it, and how many turns it has at most.
//!
//! What an end chooses for a delivery that awaits it is signed in that very turn, where it can be written with nine digits of
//! a control number. Both cores choose rightly, as these laws ask, and neither looks at integrity values.
//!
//! Before a session is played each delivery of both lists has one talk, by both choosers: the sets that are known of it, and those
//! that one end and the other will still say, each its answer to the last, until one accepts or declines. A clean session says
//! these, and no more but behind an end that declines a set which is too long with nine digits of a control number alone. A
//! delivery whose talk ends in an acceptance is final at both, and where neither end ever waits all deliveries are.
//!
//! That such a session goes on without a fault can be told before it, from both lists and both choosers: where own turns from these lists speak few blocks and find
//! room, no end hears so much that it is noise, and none finds its journal full.
//!
//! That a world makes these steps in a clean event is a law of `clean_worlds`.
#![tactic(auto)]

mod block_laws;
mod clean_talk_laws;
mod core_laws;
mod course_laws;
mod delivery_laws;
mod line_laws;
mod poll_laws;
mod quiet_laws;
mod talk_laws;
mod turn_laws;

pub use block_laws::{envelopes_cost_two_blocks, shorter_units_are_fewer_blocks, units_of_joins};
pub use clean_talk_laws::{clean_talks, deliveries_have_one_talk, ends_that_never_wait_settle_all};
pub use core_laws::{counts_choose_rightly, drafts_choose_rightly};
pub use course_laws::{
    blocks_run_out, courses_are_done, deeds_take_turns, lists_are_fronts, lists_have_one_course,
    sets_are_spoken_once, turns_keep_places, turns_run_out,
};
pub use delivery_laws::{
    clean_sessions_come_to_an_end, clean_sessions_settle_deliveries, deliveries_are_settled,
    followed_courses_come_to_their_end, own_sets_are_of_their_delivery,
    own_turns_answer_deliveries, own_turns_come_to_an_end, own_turns_follow_courses,
    own_turns_speak_few_blocks, own_turns_speak_once,
};
pub use line_laws::{headers_pass, turns_pass};
pub use poll_laws::turns_are_few;
pub use quiet_laws::{
    foretold_sessions_go_quietly, foretold_sessions_spend_few, signed_blocks_bound_spoken_ones,
};
pub use talk_laws::{
    answers_ignore_checks, chosen_answers_are_signed_at_once, chosen_sets_may_be_signed,
    cores_ignore_checks, deliveries_are_asked_apart, lower_controls_can_be_written,
    taking_leaves_other_deliveries,
};
pub use turn_laws::{
    clean_session, clean_turns_go_on, frames_are_heard_once, loads_are_given, sessions_begin,
    turns_end_complete,
};
