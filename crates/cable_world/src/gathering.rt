//! Gathering the frames that a step spoke whole.

ghost use Rattle.std.specs.Prelude.{◌≡◌, ◌<◌, ◌≤◌, ◌++◌, length, IfOk, OnOk, drop, map, ◌∷◌, []};
ghost use Rattle.dsd_station.specs.Replayed.{taken};
ghost use Rattle.cable_world.specs.Cables.{waiting_as};
ghost use Rattle.cable_world.specs.Gathering.{goes_whole};
ghost use Rattle.cable_world.specs.Scenes.{sent_to};
ghost use Rattle.cable_world.specs.Seats.{with_spoken};
ghost use Rattle.cable_world.specs.Steps.{frames_in, whole_by};

use crate::cable::Waiting;
use crate::seat::Seat;
use dsd_station::{Call, Handed, Outcome, Pick};
use dsd_values::{Memory, Role};
use std::alloc::Global;
use std::collections::VecDeque;

/// The frames that an end has spoken whole from this place of the record on are kept, and wait for the other end.
pub(crate) fn gather(
    alloc: Global,
    seat: &mut Seat,
    from: usize,
    to: Role,
    waiting: &mut VecDeque<Waiting>,
) -> Result<(), Memory>
    requires { from ≤ length seat.old.log.calls }
    ensures seat { OnOk result (seat.new ≡ with_spoken seat.old (frames_in (drop from seat.old.log.calls))) }
    ensures waiting { OnOk result (map waiting_as waiting.new.items ≡ map waiting_as waiting.old.items ++ sent_to to (frames_in (drop from seat.old.log.calls))) }
{
    let frames = frames_of(alloc, &seat.calls()[from..])?;
    wait_all(alloc, to, &frames, waiting)?;
    seat.keep_spoken(frames)
}

/// The frames that these calls spoke whole.
fn frames_of(alloc: Global, calls: &[Call]) -> Result<Vec<Handed>, Memory>
    ensures { IfOk result (λ frames. frames.items ≡ frames_in calls.now) }
{
    let mut frames = Vec::new(alloc);
    for call in calls {
        push_whole(alloc, call, &mut frames)?;
    }
    Ok(frames)
}

/// The frame of a call, where it spoke one whole.
fn push_whole(alloc: Global, call: &Call, frames: &mut Vec<Handed>) -> Result<(), Memory>
    ensures { OnOk result (frames.new.items ≡ frames.old.items ++ whole_by call.now) }
{
    if let Call::Speak { bytes, outcome } = call {
        if is_whole(*outcome, bytes.as_slice().len()) {
            frames.push(Handed::new(alloc, bytes.as_slice())?)?;
        }
    }
    Ok(())
}

/// Whether so many bytes have all gone out.
fn is_whole(outcome: Outcome, length: usize) -> bool
    ensures { result ≡ goes_whole outcome length }
{
    match outcome {
        Outcome::Done => true,
        Outcome::Failing => false,
        Outcome::Stopped(Pick::Keep) => true,
        Outcome::Stopped(Pick::Drop) => length == 0,
        Outcome::Stopped(Pick::Half) => length / 2 == length,
    }
}

/// These frames wait for an end, behind the others.
fn wait_all(
    alloc: Global,
    to: Role,
    frames: &[Handed],
    waiting: &mut VecDeque<Waiting>,
) -> Result<(), Memory>
    ensures { OnOk result (map waiting_as waiting.new.items ≡ map waiting_as waiting.old.items ++ sent_to to frames.now) }
{
    for frame in frames {
        wait_one(alloc, to, frame, waiting)?;
    }
    Ok(())
}

fn wait_one(
    alloc: Global,
    to: Role,
    frame: &Handed,
    waiting: &mut VecDeque<Waiting>,
) -> Result<(), Memory>
    ensures { OnOk result (map waiting_as waiting.new.items ≡ map waiting_as waiting.old.items ++ (to, frame.now) ∷ []) }
{
    let bytes = Handed::new(alloc, frame.as_slice())?;
    waiting.push_back(Waiting { to, bytes })?;
    Ok(())
}
