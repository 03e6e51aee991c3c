//! The events of a script.

ghost use Rattle.std.specs.Prelude.{◌≡◌, ◌<◌, ◌≤◌, [], ◌∷◌, ◌++◌, length, OnErr, OnOk};
ghost use Rattle.cable_world.specs.declared.events.TheConstants.{MOST_EVENTS as MOST};

use crate::event::Event;
use dsd_values::Memory;
use std::alloc::Global;
use std::marker::Model;

/// The most events of a script.
pub const MOST_EVENTS: usize = 10_000;

/// Events in their order. A contract sees them as a list.
#[derive(Debug, Drop)]
pub struct Events {
    events: Vec<Event>,
}

impl Model for Events {
    ghost use Rattle.std.specs.Prelude.{◌≤◌, List, length};
    ghost use Rattle.cable_world.specs.declared.event.Event.{Event as Item};
    ghost use Rattle.cable_world.specs.declared.events.TheConstants.{MOST_EVENTS as MOST};

    ghost Value = { List Item };

    ghost view = { λ events. events.events.items };

    ghost invariant = { λ events. length events.events.items ≤ MOST };
}

impl Events {
    pub fn new(alloc: Global) -> Events
        ensures { result ≡ [] }
    {
        Events {
            events: Vec::new(alloc),
        }
    }

    /// The events in their order.
    pub fn as_slice(&self) -> &[Event]
        ensures value { result.now ≡ self.now }
        ensures few { length self.now ≤ MOST }
    {
        self.events.as_slice()
    }

    /// Adds one behind the others.
    pub fn push(&mut self, event: Event) -> Result<(), Memory>
        requires { length self.old < MOST }
        ensures ok { OnOk result (self.new ≡ self.old ++ event ∷ []) }
        ensures err { OnErr result (self.new ≡ self.old) }
    {
        self.events.push(event)?;
        Ok(())
    }
}
