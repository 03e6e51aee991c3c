//! Steps of the ends on a cable, each of which is noted.

ghost use Rattle.std.specs.Prelude.{◌≡◌, ◌<◌, ◌≤◌, ◌++◌, ◌∷◌, [], OnOk, drop, length, map, true};
ghost use Rattle.dsd_values.specs.declared.role.Role.TheVariants.{Receiver, Supplier};
ghost use Rattle.cable_world.specs.CableLeft.{left_at};
ghost use Rattle.cable_world.specs.CableSteps.{Goes, IsOpen, IsOpened, IsPolled};
ghost use Rattle.cable_world.specs.Cables.{cable_of, scene_of, waiting_as};
ghost use Rattle.cable_world.specs.Noting.{NotesHandheld, NotesReceiver};
ghost use Rattle.cable_world.specs.Scenes.{side};
ghost use Rattle.cable_world.specs.Steps.{other};

use crate::answer::Answer;
use crate::cable::Cable;
use crate::gathering::gather;
use crate::step::Step;
use dsd_values::{Memory, Role};

impl Cable {
    /// Polls the end of this role, which runs.
    pub(crate) fn poll(&mut self, role: Role) -> Result<(), Memory>
        requires runs { (side (scene_of (cable_of self.old)) role).runs ≡ true }
        requires ready { IsOpen self.old }
        ensures goes { OnOk result (Goes (IsPolled role) self.old self.new) }
        ensures less { OnOk result (left_at self.new role < left_at self.old role) }
        ensures other { OnOk result (left_at self.new (other role) ≡ left_at self.old (other role)) }
    {
        match role {
            Role::Supplier => self.poll_handheld(),
            Role::Receiver => self.poll_receiver(),
        }
    }

    fn poll_handheld(&mut self) -> Result<(), Memory>
        requires runs { (scene_of (cable_of self.old)).supplier.runs ≡ true }
        requires ready { IsOpen self.old }
        ensures goes { OnOk result (Goes (IsPolled Supplier) self.old self.new) }
        ensures less { OnOk result (left_at self.new Supplier < left_at self.old Supplier) }
        ensures other { OnOk result (left_at self.new (other Supplier) ≡ left_at self.old (other Supplier)) }
    {
        let from = self.handheld.calls().len();
        match self.handheld.poll() {
            Ok(answer) => self.note_handheld(from, answer),
            Err(memory) => Err(memory),
        }
    }

    fn poll_receiver(&mut self) -> Result<(), Memory>
        requires runs { (scene_of (cable_of self.old)).receiver.runs ≡ true }
        requires ready { IsOpen self.old }
        ensures goes { OnOk result (Goes (IsPolled Receiver) self.old self.new) }
        ensures less { OnOk result (left_at self.new Receiver < left_at self.old Receiver) }
        ensures other { OnOk result (left_at self.new (other Receiver) ≡ left_at self.old (other Receiver)) }
    {
        let from = self.receiver.calls().len();
        match self.receiver.poll() {
            Ok(answer) => self.note_receiver(from, answer),
            Err(memory) => Err(memory),
        }
    }

    /// Restarts the station of this role, and opens its end.
    pub(crate) fn open(&mut self, role: Role) -> Result<(), Memory>
        requires ready { IsOpen self.old }
        ensures goes { OnOk result (Goes (IsOpened role) self.old self.new) }
    {
        match role {
            Role::Supplier => self.open_handheld(),
            Role::Receiver => self.open_receiver(),
        }
    }

    fn open_handheld(&mut self) -> Result<(), Memory>
        requires ready { IsOpen self.old }
        ensures goes { OnOk result (Goes (IsOpened Supplier) self.old self.new) }
    {
        // The part begins behind the restart.
        let from = self.handheld.calls().len() + 1;
        match self
            .handheld
            .start(self.alloc, Role::Supplier, &self.setting)
        {
            Ok(answer) => self.note_handheld(from, answer),
            Err(memory) => Err(memory),
        }
    }

    fn open_receiver(&mut self) -> Result<(), Memory>
        requires ready { IsOpen self.old }
        ensures goes { OnOk result (Goes (IsOpened Receiver) self.old self.new) }
    {
        let from = self.receiver.calls().len() + 1;
        match self
            .receiver
            .start(self.alloc, Role::Receiver, &self.setting)
        {
            Ok(answer) => self.note_receiver(from, answer),
            Err(memory) => Err(memory),
        }
    }

    /// Notes a step of the handheld, with the frames that it spoke.
    fn note_handheld(&mut self, from: usize, answer: Answer) -> Result<(), Memory>
        requires { from ≤ length self.old.handheld.log.calls }
        ensures { OnOk result (NotesHandheld from answer self.old self.new) }
    {
        let until = self.handheld.calls().len();
        let to = Role::Receiver;
        match gather(self.alloc, &mut self.handheld, from, to, &mut self.waiting) {
            Ok(()) => add_step(&mut self.steps, Role::Supplier, answer, from, until),
            Err(memory) => Err(memory),
        }
    }

    /// Notes a step of the receiver, with the frames that it spoke.
    fn note_receiver(&mut self, from: usize, answer: Answer) -> Result<(), Memory>
        requires { from ≤ length self.old.receiver.log.calls }
        ensures { OnOk result (NotesReceiver from answer self.old self.new) }
    {
        let until = self.receiver.calls().len();
        let to = Role::Supplier;
        match gather(self.alloc, &mut self.receiver, from, to, &mut self.waiting) {
            Ok(()) => add_step(&mut self.steps, Role::Receiver, answer, from, until),
            Err(memory) => Err(memory),
        }
    }
}

/// Adds a step to the list.
fn add_step(
    steps: &mut Vec<Step>,
    role: Role,
    answer: Answer,
    from: usize,
    until: usize,
) -> Result<(), Memory>
    ensures { OnOk result (steps.new.items ≡ steps.old.items ++ record { role = role; answer = answer; from = from; until = until } ∷ []) }
{
    add(steps, Step::new(role, answer, from, until))
}

fn add<T: Drop>(list: &mut Vec<T>, item: T) -> Result<(), Memory>
    ensures { OnOk result (list.new.items ≡ list.old.items ++ item ∷ []) }
{
    match list.push(item) {
        Ok(()) => Ok(()),
        Err(_) => Err(Memory),
    }
}
