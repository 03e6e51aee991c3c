//! Opening two ends that do not run: their stations in memory with formatted journals, and the cable between them.

ghost use Rattle.std.specs.Prelude.{◌≡◌, false, IfOk};
ghost use Rattle.cable_world.specs.CableSteps.{IsOpen};
ghost use Rattle.cable_world.specs.Opening.{IsIdle};
ghost use Rattle.cable_world.specs.Worlds.{IsFormatted};

use crate::cable::Cable;
use crate::seat::Seat;
use crate::setting::Setting;
use dsd_journal::{FormatFault, Header, format};
use dsd_station::MemoryStation;
use dsd_values::{Memory, Role};
use std::alloc::Global;
use std::collections::VecDeque;

/// Two ends that do not run, each at a station in memory whose journal is formatted, with nothing on the cable.
pub(crate) fn open_cable(alloc: Global, setting: Setting) -> Result<Cable, Memory>
    ensures setting { IfOk result (λ cable. cable.setting ≡ setting) }
    ensures idle { IfOk result IsIdle }
    ensures open { IfOk result IsOpen }
{
    let handheld = format_station(alloc, Role::Supplier, &setting.ends.handheld)?;
    let receiver = format_station(alloc, Role::Receiver, &setting.ends.receiver)?;
    Ok(Cable {
        alloc,
        setting,
        handheld: Seat::new(alloc, handheld),
        receiver: Seat::new(alloc, receiver),
        waiting: VecDeque::new(alloc),
        steps: Vec::new(alloc),
    })
}

/// A station in memory with the journal of this end, which has no entries.
fn format_station(alloc: Global, role: Role, whose: &Header) -> Result<MemoryStation, Memory>
    ensures formatted { IfOk result (IsFormatted (record { role = role; own = whose.now.own; peer = whose.now.peer })) }
    ensures unstarved { IfOk result (λ station. station.starved ≡ false) }
{
    let mut station = MemoryStation::new(alloc);
    let formatted = format(&mut station, role, whose.own, whose.peer);
    // What holds of each station in memory is known of its record.
    let _ = station.starved();
    match formatted {
        Ok(()) => Ok(station),
        // A new journal is empty.
        Err(FormatFault::NotEmpty(_)) => unreachable!(),
        // With nothing armed no call fails but for want of memory.
        Err(FormatFault::Station) => Err(Memory),
    }
}
