//! Two ends on one cable.

ghost use Rattle.std.specs.Prelude.{◌≡◌};
ghost use Rattle.dsd_station.specs.Logged.{image_by};
ghost use Rattle.cable_world.specs.Cables.{cable_of, seat};

use crate::seat::Seat;
use crate::setting::Setting;
use crate::step::Step;
use dsd_station::Handed;
use dsd_values::Role;
use std::alloc::Global;
use std::collections::VecDeque;

/// A frame that was spoken whole, and the end that is to hear it.
#[derive(Drop)]
pub(crate) struct Waiting {
    pub to: Role,
    pub bytes: Handed,
}

/// Two ends on one cable, with the frames between them and the list of their steps.
#[derive(Drop)]
pub(crate) struct Cable {
    pub alloc: Global,
    pub setting: Setting,
    pub handheld: Seat,
    pub receiver: Seat,
    pub waiting: VecDeque<Waiting>,
    pub steps: Vec<Step>,
}

impl Cable {
    /// The image that the station of this end has.
    pub(crate) fn image(&self, role: Role) -> &[u8]
        ensures { result.now ≡ image_by (seat (cable_of self.now) role).log }
    {
        match role {
            Role::Supplier => self.handheld.image(),
            Role::Receiver => self.receiver.image(),
        }
    }
}
