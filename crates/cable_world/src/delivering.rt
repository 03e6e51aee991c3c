//! Frames on a cable: delivered, broken, lost, and delivered again.

ghost use Rattle.std.specs.Prelude.{◌≡◌, ◌<◌, ◌-◌, IfOk, OnOk, length, slice_get};
ghost use Rattle.dex_line.specs.Occurrence.{broken};
ghost use Rattle.cable_world.specs.CableSteps.{Goes, IsOpen};
ghost use Rattle.cable_world.specs.Cables.{cable_of, scene_of, seat};
ghost use Rattle.cable_world.specs.Obeying.{Delivers, Plays, unchanged};
ghost use Rattle.cable_world.specs.CableLeft.{left_to_do};
ghost use Rattle.cable_world.specs.Scenes.{side};
ghost use Rattle.cable_world.specs.Steps.{other};
ghost use Rattle.cable_world.specs.declared.event.Event.TheVariants.{Again, Break, Lose, Pass};

use crate::cable::Cable;
use crate::seat::Seat;
use dsd_station::{Given, Handed};
use dsd_values::{Memory, Role};
use std::alloc::Global;

impl Cable {
    /// Delivers the oldest waiting frame, where one waits.
    pub(crate) fn deliver(&mut self) -> Result<(), Memory>
        requires ready { IsOpen self.old }
        ensures goes { OnOk result (Goes (Delivers unchanged) self.old self.new) }
        ensures less { 0 < length self.old.waiting.items → OnOk result (left_to_do self.new < left_to_do self.old) }
    {
        match self.waiting.pop_front() {
            Some(frame) => self.hear(frame.to, &Given::Bytes(frame.bytes)),
            None => Ok(()),
        }
    }

    /// So many times the oldest waiting frame is delivered.
    pub(crate) fn pass(&mut self, times: u32) -> Result<(), Memory>
        requires ready { IsOpen self.old }
        ensures { OnOk result (Goes (Plays (Pass times)) self.old self.new) }
    {
        let mut left = times;
        while left > 0 {
            if self.waiting.is_empty() {
                return Ok(());
            }
            self.deliver()?;
            left -= 1;
        }
        Ok(())
    }

    /// Delivers the oldest waiting frame, where one waits, with its last byte inverted.
    pub(crate) fn deliver_broken(&mut self) -> Result<(), Memory>
        requires ready { IsOpen self.old }
        ensures { OnOk result (Goes (Plays Break) self.old self.new) }
    {
        match self.waiting.pop_front() {
            None => Ok(()),
            Some(frame) => match broken_copy(self.alloc, frame.bytes.as_slice()) {
                Ok(bytes) => self.hear(frame.to, &Given::Bytes(bytes)),
                Err(memory) => Err(memory),
            },
        }
    }

    /// Drops the oldest waiting frame.
    pub(crate) fn lose(&mut self)
        requires ready { IsOpen self.old }
        ensures { Goes (Plays Lose) self.old self.new }
    {
        let _ = self.waiting.pop_front();
    }

    /// Delivers to this end the frame of this number that the other one has spoken whole, where there is one.
    pub(crate) fn again(&mut self, role: Role, number: u32) -> Result<(), Memory>
        requires ready { IsOpen self.old }
        ensures { OnOk result (Goes (Plays (Again role number)) self.old self.new) }
    {
        match self.spoken_to(role, number) {
            Ok(Some(frame)) => self.hear(role, &Given::Bytes(frame)),
            Ok(None) => Ok(()),
            Err(memory) => Err(memory),
        }
    }

    /// A copy of the frame of this number, from 1, that the other end than this has spoken whole.
    fn spoken_to(&self, role: Role, number: u32) -> Result<Option<Handed>, Memory>
        ensures { IfOk result (λ frame. frame ≡ slice_get (side (scene_of (cable_of self.now)) (other role)).spoken (number - 1)) }
    {
        match self.seat_beside(role).frame(number) {
            Some(frame) => Ok(Some(Handed::new(self.alloc, frame.as_slice())?)),
            None => Ok(None),
        }
    }

    /// The seat of the other end than this.
    fn seat_beside(&self, role: Role) -> &Seat
        ensures { result.now ≡ seat (cable_of self.now) (other role) }
    {
        match role {
            Role::Supplier => &self.receiver,
            Role::Receiver => &self.handheld,
        }
    }
}

/// These bytes with all bits of the last one inverted.
#[tactic(auto, using(crate::proofs::Delivered::broken_last))]
fn broken_copy(alloc: Global, bytes: &[u8]) -> Result<Handed, Memory>
    ensures { IfOk result (λ copy. copy ≡ broken bytes.now) }
{
    match bytes.split_last() {
        None => Ok(Handed::new(alloc, bytes)?),
        Some((last, front)) => {
            let mut copy = front.to_vec(alloc)?;
            copy.push(255 - *last)?;
            Ok(Handed::new(alloc, &copy)?)
        }
    }
}
