//! Which words the program takes: one level of subcommands, as `clap` reads them.
#![tactic(auto)]

mod asking;
mod command;

pub use asking::are_taken;
