//! Restarting a station in memory and opening its end.

ghost use Rattle.std.specs.Prelude.{◌≡◌, false, IfOk, Err, Ok};
ghost use Rattle.dsd_station.specs.Logged.{Log};
ghost use Rattle.dsd_station.specs.Plans.{after_restart};
ghost use Rattle.dsd_values.specs.declared.role.Role.TheVariants.{Receiver, Supplier};
ghost use Rattle.handheld_core.specs.Choosing.{supplier};
ghost use Rattle.receiver_core.specs.Choosing.{receiver};
ghost use Rattle.cable_world.specs.SeatOpens.{PlayerOpens};
ghost use Rattle.cable_world.specs.SeatSteps.{Grows};
ghost use Rattle.cable_world.specs.Settings.{chooser_at};

use crate::player::Player;
use crate::setting::Setting;
use dsd_journal::OpenFault;
use dsd_station::MemoryStation;
use dsd_values::{Memory, Role};
use handheld_core::Drafts;
use receiver_core::Counts;
use std::alloc::Global;

/// Restarts the station of this end, and opens the end.
pub(crate) fn start(
    alloc: Global,
    role: Role,
    station: &mut MemoryStation,
    setting: &Setting,
) -> Result<Result<Player, OpenFault>, Memory>
    requires unstarved { station.old.starved ≡ false }
    ensures grows { Grows station.old station.new }
    ensures opens { IfOk result (λ opened. PlayerOpens role (chooser_at setting.now role) opened station.old station.new) }
    ensures unstarved { IfOk result (λ opened. station.new.starved ≡ false) }
{
    match role {
        Role::Supplier => start_handheld(alloc, station, setting),
        Role::Receiver => start_receiver(alloc, station, setting),
    }
}

/// Restarts the station of the handheld, and opens its end.
fn start_handheld(
    alloc: Global,
    station: &mut MemoryStation,
    setting: &Setting,
) -> Result<Result<Player, OpenFault>, Memory>
    requires unstarved { station.old.starved ≡ false }
    ensures grows { Grows station.old station.new }
    ensures opens { IfOk result (λ opened. PlayerOpens Supplier (supplier setting.now.drafts) opened station.old station.new) }
    ensures unstarved { IfOk result (λ opened. station.new.starved ≡ false) }
{
    match station.restart() {
        Ok(()) => open_sharing_handheld(alloc, station, setting),
        Err(memory) => Err(memory),
    }
}

/// Opens the handheld's end with its choices, which it shares.
fn open_sharing_handheld(
    alloc: Global,
    station: &mut MemoryStation,
    setting: &Setting,
) -> Result<Result<Player, OpenFault>, Memory>
    requires unstarved { station.old.starved ≡ false }
    ensures grows { Grows station.old station.new }
    ensures opens { (before : Log) → station.old ≡ after_restart before → IfOk result (λ opened. PlayerOpens Supplier (supplier setting.now.drafts) opened before station.new) }
    ensures unstarved { IfOk result (λ opened. station.new.starved ≡ false) }
{
    match setting.drafts.try_clone() {
        Ok(drafts) => open_handheld(alloc, station, drafts),
        Err(memory) => Err(memory),
    }
}

/// Opens the handheld's end.
fn open_handheld(
    alloc: Global,
    station: &mut MemoryStation,
    drafts: Drafts,
) -> Result<Result<Player, OpenFault>, Memory>
    requires unstarved { station.old.starved ≡ false }
    ensures grows { Grows station.old station.new }
    ensures opens { (before : Log) → station.old ≡ after_restart before → IfOk result (λ opened. PlayerOpens Supplier (supplier drafts) opened before station.new) }
    ensures unstarved { IfOk result (λ opened. station.new.starved ≡ false) }
{
    // What holds of each station in memory is known of its record.
    let _ = station.calls();
    let opened = Player::open_handheld(alloc, station, drafts);
    let starved = station.starved();
    unless_memory(opened, starved)
}

/// Restarts the station of the receiver, and opens its end.
fn start_receiver(
    alloc: Global,
    station: &mut MemoryStation,
    setting: &Setting,
) -> Result<Result<Player, OpenFault>, Memory>
    requires unstarved { station.old.starved ≡ false }
    ensures grows { Grows station.old station.new }
    ensures opens { IfOk result (λ opened. PlayerOpens Receiver (receiver setting.now.counts) opened station.old station.new) }
    ensures unstarved { IfOk result (λ opened. station.new.starved ≡ false) }
{
    match station.restart() {
        Ok(()) => open_sharing_receiver(alloc, station, setting),
        Err(memory) => Err(memory),
    }
}

/// Opens the receiver's end with its choices, which it shares.
fn open_sharing_receiver(
    alloc: Global,
    station: &mut MemoryStation,
    setting: &Setting,
) -> Result<Result<Player, OpenFault>, Memory>
    requires unstarved { station.old.starved ≡ false }
    ensures grows { Grows station.old station.new }
    ensures opens { (before : Log) → station.old ≡ after_restart before → IfOk result (λ opened. PlayerOpens Receiver (receiver setting.now.counts) opened before station.new) }
    ensures unstarved { IfOk result (λ opened. station.new.starved ≡ false) }
{
    match setting.counts.try_clone() {
        Ok(counts) => open_receiver(alloc, station, counts),
        Err(memory) => Err(memory),
    }
}

/// Opens the receiver's end.
fn open_receiver(
    alloc: Global,
    station: &mut MemoryStation,
    counts: Counts,
) -> Result<Result<Player, OpenFault>, Memory>
    requires unstarved { station.old.starved ≡ false }
    ensures grows { Grows station.old station.new }
    ensures opens { (before : Log) → station.old ≡ after_restart before → IfOk result (λ opened. PlayerOpens Receiver (receiver counts) opened before station.new) }
    ensures unstarved { IfOk result (λ opened. station.new.starved ≡ false) }
{
    // What holds of each station in memory is known of its record.
    let _ = station.calls();
    let opened = Player::open_receiver(alloc, station, counts);
    let starved = station.starved();
    unless_memory(opened, starved)
}

/// What an opening answered, where nothing failed for want of memory.
fn unless_memory(
    opened: Result<Player, OpenFault>,
    starved: bool,
) -> Result<Result<Player, OpenFault>, Memory>
    ensures { IfOk result (λ kept. (kept ≡ opened) × (starved ≡ false) × (opened ≡ Err OpenFault.Memory → ⊥)) }
{
    match opened {
        Ok(player) => unless_starved(player, starved),
        Err(OpenFault::Memory) => Err(Memory),
        Err(_) if starved => Err(Memory),
        Err(fault) => Ok(Err(fault)),
    }
}

fn unless_starved(player: Player, starved: bool) -> Result<Result<Player, OpenFault>, Memory>
    ensures { IfOk result (λ kept. (kept ≡ Ok player) × (starved ≡ false)) }
{
    if starved {
        player.close();
        return Err(Memory);
    }
    Ok(Ok(player))
}
