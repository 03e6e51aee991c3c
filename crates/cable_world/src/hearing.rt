//! What the ends on a cable hear.

ghost use Rattle.std.specs.Prelude.{◌≡◌, ◌<◌, ◌≤◌, OnOk, true};
ghost use Rattle.dsd_station.specs.declared.feeding.Given.TheVariants as givens;
ghost use Rattle.cable_world.specs.CableSteps.{Goes, IsOpen};
ghost use Rattle.cable_world.specs.Cables.{cable_of, scene_of};
ghost use Rattle.cable_world.specs.Obeying.{Hears, IsPolledOut};
ghost use Rattle.cable_world.specs.CableLeft.{left_to_do};
ghost use Rattle.cable_world.specs.Scenes.{is_busy as is_busy_side, side};
ghost use Rattle.cable_world.specs.Feeding.{IsFed};

use crate::cable::Cable;
use dsd_station::{Given, Handed};
use dsd_values::{Memory, Role};

impl Cable {
    /// Whether the end of this role runs.
    pub(crate) fn runs(&self, role: Role) -> bool
        ensures { result ≡ (side (scene_of (cable_of self.now)) role).runs }
    {
        match role {
            Role::Supplier => self.handheld.runs(),
            Role::Receiver => self.receiver.runs(),
        }
    }

    fn is_busy(&self, role: Role) -> bool
        ensures { result ≡ is_busy_side (side (scene_of (cable_of self.now)) role) }
    {
        match role {
            Role::Supplier => self.handheld.is_busy(),
            Role::Receiver => self.receiver.is_busy(),
        }
    }

    /// The end of this role hears this, as far as it runs.
    pub(crate) fn hear(&mut self, role: Role, given: &Given) -> Result<(), Memory>
        requires ready { IsOpen self.old }
        ensures goes { OnOk result (Goes (Hears role given.now) self.old self.new) }
        ensures left { OnOk result (left_to_do self.new ≤ left_to_do self.old) }
    {
        if !self.runs(role) {
            return Ok(());
        }
        match self.feed(role, given) {
            Ok(()) => self.poll_out(role),
            Err(memory) => Err(memory),
        }
    }

    /// A running end hears that nothing comes.
    pub(crate) fn hear_quiet(&mut self, role: Role) -> Result<(), Memory>
        requires ready { IsOpen self.old }
        ensures goes { OnOk result (Goes (Hears role (givens.Quiet 1)) self.old self.new) }
        ensures left { OnOk result (left_to_do self.new ≤ left_to_do self.old) }
        ensures less { (side (scene_of (cable_of self.old)) role).runs ≡ true → OnOk result (left_to_do self.new < left_to_do self.old) }
    {
        if !self.runs(role) {
            return Ok(());
        }
        match self.feed(role, &Given::Quiet(1)) {
            Ok(()) => self.poll_out(role),
            Err(memory) => Err(memory),
        }
    }

    pub(crate) fn hear_bytes(&mut self, role: Role, bytes: &[u8]) -> Result<(), Memory>
        requires ready { IsOpen self.old }
        ensures { OnOk result (Goes (Hears role (givens.Bytes bytes.now)) self.old self.new) }
    {
        match Handed::new(self.alloc, bytes) {
            Ok(bytes) => self.hear(role, &Given::Bytes(bytes)),
            Err(_) => Err(Memory),
        }
    }

    fn feed(&mut self, role: Role, given: &Given) -> Result<(), Memory>
        requires ready { IsOpen self.old }
        ensures { OnOk result (IsFed role given.now self.old self.new) }
    {
        match role {
            Role::Supplier => self.handheld.feed(given),
            Role::Receiver => self.receiver.feed(given),
        }
    }

    /// Polls an end until what its port is due to give is taken.
    fn poll_out(&mut self, role: Role) -> Result<(), Memory>
        requires ready { IsOpen self.old }
        ensures goes { OnOk result (Goes (IsPolledOut role) self.old self.new) }
        ensures left { OnOk result (left_to_do self.new ≤ left_to_do self.old) }
        ensures less { is_busy_side (side (scene_of (cable_of self.old)) role) ≡ true → OnOk result (left_to_do self.new < left_to_do self.old) }
    {
        while self.is_busy(role) {
            self.poll(role)?;
        }
        Ok(())
    }
}
