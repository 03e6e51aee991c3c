//! Ends on a cable are started, and armed with a stop or a failure.

ghost use Rattle.std.specs.Prelude.{◌≡◌, OnOk};
ghost use Rattle.dsd_values.specs.declared.role.Role.TheVariants.{Supplier};
ghost use Rattle.cable_world.specs.CableSteps.{Goes, IsOpen};
ghost use Rattle.cable_world.specs.Obeying.{IsFirstPolled, Plays, Starts};
ghost use Rattle.cable_world.specs.declared.event.Event.TheVariants.{Fail, Stop};

use crate::cable::Cable;
use dsd_station::Pick;
use dsd_values::{Memory, Role};

impl Cable {
    /// Where the end of this role does not run, its station restarts and it is opened. A handheld is then polled once.
    pub(crate) fn start(&mut self, role: Role) -> Result<(), Memory>
        requires ready { IsOpen self.old }
        ensures { OnOk result (Goes (Starts role) self.old self.new) }
    {
        if self.runs(role) {
            return Ok(());
        }
        match self.open(role) {
            Ok(()) => self.poll_first(role),
            Err(memory) => Err(memory),
        }
    }

    fn poll_first(&mut self, role: Role) -> Result<(), Memory>
        requires ready { IsOpen self.old }
        ensures { OnOk result (Goes (IsFirstPolled role) self.old self.new) }
    {
        match role {
            Role::Supplier => self.poll_handheld_first(),
            Role::Receiver => Ok(()),
        }
    }

    fn poll_handheld_first(&mut self) -> Result<(), Memory>
        requires ready { IsOpen self.old }
        ensures { OnOk result (Goes (IsFirstPolled Supplier) self.old self.new) }
    {
        if !self.runs(Role::Supplier) {
            return Ok(());
        }
        self.poll(Role::Supplier)
    }

    pub(crate) fn arm_stop(&mut self, role: Role, number: u32, pick: Pick)
        requires ready { IsOpen self.old }
        ensures { Goes (Plays (Stop role number pick)) self.old self.new }
    {
        match role {
            Role::Supplier => self.handheld.arm_stop(number, pick),
            Role::Receiver => self.receiver.arm_stop(number, pick),
        }
    }

    pub(crate) fn arm_fail(&mut self, role: Role, number: u32)
        requires ready { IsOpen self.old }
        ensures { Goes (Plays (Fail role number)) self.old self.new }
    {
        match role {
            Role::Supplier => self.handheld.arm_fail(number),
            Role::Receiver => self.receiver.arm_fail(number),
        }
    }
}
