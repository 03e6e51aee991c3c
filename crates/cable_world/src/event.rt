//! What a script says is to happen.

use dsd_station::Pick;
use dsd_values::{Kept, Role};

/// One event of a script. The handheld is the supplier's end.
#[derive(Debug, Drop)]
pub enum Event {
    /// The station of an end that does not run restarts, and the end is opened.
    Start(Role),
    /// So many times the oldest waiting frame is delivered.
    Pass(u32),
    /// The oldest waiting frame is dropped.
    Lose,
    /// The oldest waiting frame is delivered with all bits of its last byte inverted.
    Break,
    /// The frame of this number, from 1, that the other end has spoken whole is delivered to this one.
    Again(Role, u32),
    /// An end hears so many times that nothing comes.
    Quiet(Role, u32),
    /// All waiting frames are dropped, and each running end hears that the cable is unplugged.
    Unplug,
    /// An end hears these bytes.
    Hear(Role, Kept),
    /// A stop is armed at the device call of this number, from 1, among those that are counted.
    Stop(Role, u32, Pick),
    /// A failure is armed likewise.
    Fail(Role, u32),
    /// The cable is unplugged, the ends are started, and what waits is delivered as long as an end runs.
    Clean,
}
