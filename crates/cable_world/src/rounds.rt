//! Both ends on a cable hear something, and exchange until none runs.

ghost use Rattle.std.specs.Prelude.{◌≡◌, ◌<◌, OnOk, true};
ghost use Rattle.dsd_values.specs.declared.role.Role.TheVariants.{Receiver, Supplier};
ghost use Rattle.dsd_station.specs.declared.feeding.Given.TheVariants as given;
ghost use Rattle.cable_world.specs.CableSteps.{Goes, IsOpen};
ghost use Rattle.cable_world.specs.Cables.{cable_of, scene_of};
ghost use Rattle.cable_world.specs.Obeying.{Exchanges, Hears, IsRound, Plays, Then, Unplugs};
ghost use Rattle.cable_world.specs.CableLeft.{left_to_do};
ghost use Rattle.cable_world.specs.Scenes.{some_runs as some_runs_in};
ghost use Rattle.cable_world.specs.declared.event.Event.TheVariants.{Clean, Quiet};

use crate::cable::Cable;
use dsd_station::Given;
use dsd_values::{Memory, Role};

impl Cable {
    /// An end hears so many times that nothing comes.
    pub(crate) fn quiet(&mut self, role: Role, times: u32) -> Result<(), Memory>
        requires ready { IsOpen self.old }
        ensures { OnOk result (Goes (Plays (Quiet role times)) self.old self.new) }
    {
        let mut left = times;
        while left > 0 {
            self.hear_quiet(role)?;
            left -= 1;
        }
        Ok(())
    }

    /// Drops all waiting frames, and each running end hears that the cable is unplugged.
    pub(crate) fn unplug(&mut self) -> Result<(), Memory>
        requires ready { IsOpen self.old }
        ensures { OnOk result (Goes Unplugs self.old self.new) }
    {
        self.waiting.clear();
        self.unplug_both()
    }

    fn unplug_both(&mut self) -> Result<(), Memory>
        requires ready { IsOpen self.old }
        ensures { OnOk result (Goes (Then (Hears Supplier given.Unplugged) (Hears Receiver given.Unplugged)) self.old self.new) }
    {
        match self.hear(Role::Supplier, &Given::Unplugged) {
            Ok(()) => self.hear(Role::Receiver, &Given::Unplugged),
            Err(memory) => Err(memory),
        }
    }

    fn quiet_both(&mut self) -> Result<(), Memory>
        requires ready { IsOpen self.old }
        ensures goes { OnOk result (Goes (Then (Hears Supplier (given.Quiet 1)) (Hears Receiver (given.Quiet 1))) self.old self.new) }
        ensures less { some_runs_in (scene_of (cable_of self.old)) ≡ true → OnOk result (left_to_do self.new < left_to_do self.old) }
    {
        match self.hear_quiet(Role::Supplier) {
            Ok(()) => self.hear_quiet(Role::Receiver),
            Err(memory) => Err(memory),
        }
    }

    fn some_runs(&self) -> bool
        ensures { result ≡ some_runs_in (scene_of (cable_of self.now)) }
    {
        self.handheld.runs() || self.receiver.runs()
    }

    /// Delivers the oldest waiting frame. Where none waits, each running end hears that nothing comes.
    fn round(&mut self) -> Result<(), Memory>
        requires ready { IsOpen self.old }
        requires runs { some_runs_in (scene_of (cable_of self.old)) ≡ true }
        ensures goes { OnOk result (Goes IsRound self.old self.new) }
        ensures less { OnOk result (left_to_do self.new < left_to_do self.old) }
    {
        if self.waiting.is_empty() {
            self.quiet_both()
        } else {
            self.deliver()
        }
    }

    /// Rounds, until no end runs.
    fn exchange(&mut self) -> Result<(), Memory>
        requires ready { IsOpen self.old }
        ensures { OnOk result (Goes Exchanges self.old self.new) }
    {
        while self.some_runs() {
            self.round()?;
        }
        Ok(())
    }

    /// Unplugs the cable, starts both ends and lets them exchange until none runs.
    pub(crate) fn clean(&mut self) -> Result<(), Memory>
        requires ready { IsOpen self.old }
        ensures { OnOk result (Goes (Plays Clean) self.old self.new) }
    {
        self.unplug()?;
        self.start(Role::Receiver)?;
        self.start(Role::Supplier)?;
        self.exchange()
    }
}
