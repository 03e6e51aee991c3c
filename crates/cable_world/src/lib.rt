//! Scripts, and two ends over one cable: which texts say which script, and when a world of two ends obeys one.
#![tactic(auto)]

mod answer;
mod cable;
mod deed;
mod delivering;
mod event;
mod event_line;
mod events;
mod finishing;
mod from_text;
mod gathering;
mod hearing;
mod last_run;
mod laws;
mod leaving;
mod left_book;
mod opening;
mod player;
mod playing;
mod polling;
mod reading;
mod rounds;
mod script;
mod seat;
mod setting;
mod stage;
mod starting;
mod starting_ends;
mod step;
mod stepping;
mod world;
mod world_laws;
mod world_report;

pub use answer::Answer;
pub use event::Event;
pub use events::{Events, MOST_EVENTS};
pub use script::Script;
pub use stage::Stage;
pub use world::{World, open_world};
pub use world_report::WorldReport;
