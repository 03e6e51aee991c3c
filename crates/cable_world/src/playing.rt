//! The events of a script are played on a cable.

ghost use Rattle.std.specs.Prelude.{◌≡◌, OnOk};
ghost use Rattle.cable_world.specs.CableSteps.{Goes, IsOpen};
ghost use Rattle.cable_world.specs.Obeying.{Obeys, Plays};

use crate::cable::Cable;
use crate::event::Event;
use dsd_values::Memory;

impl Cable {
    /// Plays these events in their order.
    pub(crate) fn play_all(&mut self, events: &[Event]) -> Result<(), Memory>
        requires ready { IsOpen self.old }
        ensures { OnOk result (Goes (Obeys events.now) self.old self.new) }
    {
        for event in events {
            self.play(event)?;
        }
        Ok(())
    }

    fn play(&mut self, event: &Event) -> Result<(), Memory>
        requires ready { IsOpen self.old }
        ensures { OnOk result (Goes (Plays event.now) self.old self.new) }
    {
        match event {
            Event::Start(role) => self.start(*role),
            Event::Pass(times) => self.pass(*times),
            Event::Lose => {
                self.lose();
                Ok(())
            }
            Event::Break => self.deliver_broken(),
            Event::Again(role, number) => self.again(*role, *number),
            Event::Quiet(role, times) => self.quiet(*role, *times),
            Event::Unplug => self.unplug(),
            Event::Hear(role, bytes) => self.hear_bytes(*role, bytes.as_slice()),
            Event::Stop(role, number, pick) => {
                self.arm_stop(*role, *number, *pick);
                Ok(())
            }
            Event::Fail(role, number) => {
                self.arm_fail(*role, *number);
                Ok(())
            }
            Event::Clean => self.clean(),
        }
    }
}
