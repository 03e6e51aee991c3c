//! A world: two ends over one cable, and a script.

ghost use Rattle.std.specs.Prelude.{◌≡◌, IfOk, OnOk};
ghost use Rattle.dsd_station.specs.Logged.{image_by};
ghost use Rattle.cable_world.specs.Scenes.{side};
ghost use Rattle.cable_world.specs.WorldReports.{IsReportOf};
ghost use Rattle.cable_world.specs.Worlds.{HasPlayed, IsNew, IsTwoLives};

use crate::cable::Cable;
use crate::events::Events;
use crate::opening::open_cable;
use crate::script::Script;
use crate::setting::Setting;
use crate::stage::Stage;
use crate::world_report::WorldReport;
use dsd_journal::an_image_holds_one_list;
use dsd_record::Decider;
use dsd_values::{Memory, Role};
use std::alloc::Global;
use std::marker::Model;

/// Two ends over stations in memory and the cable between them, with the script that is played on them.
///
/// It keeps the list of its steps: each opening and each poll of an end, with what it answered and the part of its station's record that it made.
#[derive(Drop)]
pub struct World {
    cable: Cable,
    events: Events,
    stage: Stage,
}

impl Model for World {
    ghost use Rattle.cable_world.specs.WorldInside.{IsWorld, world_of};
    ghost use Rattle.cable_world.specs.Worlds.{WorldView};

    ghost Value = { WorldView };

    ghost view = { world_of };

    ghost invariant = { IsWorld };
}

/// A world of this script that has played nothing: both journals are formatted, in stations in memory.
pub fn open_world(alloc: Global, script: Script) -> Result<World, Memory>
    ensures script { IfOk result (λ world. world.script ≡ script) }
    ensures stage { IfOk result (λ world. world.stage ≡ Stage.New) }
    ensures new { IfOk result IsNew }
{
    let setting = Setting {
        ends: script.ends,
        drafts: script.drafts,
        counts: script.counts,
    };
    Ok(World {
        cable: open_cable(alloc, setting)?,
        events: script.events,
        stage: Stage::New,
    })
}

impl World {
    /// Plays all events of the script. After `Memory` the world may only be dropped.
    pub fn play(&mut self) -> Result<(), Memory>
        requires { self.old.stage ≡ Stage.New }
        ensures script { OnOk result (self.new.script ≡ self.old.script) }
        ensures stage { OnOk result (self.new.stage ≡ Stage.Played) }
        // The steps obey the script, and they are what each end tells of its runs.
        ensures played { OnOk result (HasPlayed self.new) }
        // Both ends hold the same record.
        ensures lives { OnOk result (IsTwoLives self.new) }
    {
        // Of each image it is known that it holds one list at most, and of each draft that some text spells it.
        an_image_holds_one_list();
        let _ = self.cable.setting.drafts.drafts();
        self.stage = Stage::Broken;
        match self.cable.play_all(self.events.as_slice()) {
            Ok(()) => {
                self.stage = Stage::Played;
                Ok(())
            }
            Err(memory) => Err(memory),
        }
    }

    /// What is printed of the books over the images that are left and of how the last run of each end came out. The book of an end whose session has ended
    /// is at hand; else its station is disarmed and restarted, and a book opened. After `Memory` the world may only be dropped.
    pub fn finish(&mut self) -> Result<WorldReport, Memory>
        requires { self.old.stage ≡ Stage.Played }
        ensures script { self.new.script ≡ self.old.script }
        ensures stage { OnOk result (self.new.stage ≡ Stage.Finished) }
        ensures steps { OnOk result (self.new.noted ≡ self.old.noted) }
        ensures played { OnOk result (HasPlayed self.new) }
        ensures lives { OnOk result (IsTwoLives self.new) }
        // The report is of the images that the last event left.
        ensures report { IfOk result (IsReportOf self.new) }
        ensures images { OnOk result ((role : Role) → image_by (side self.new.scene role).log ≡ image_by (side self.old.scene role).log) }
    {
        self.stage = Stage::Broken;
        match self.cable.finish() {
            Ok(report) => {
                self.stage = Stage::Finished;
                Ok(report)
            }
            Err(memory) => Err(memory),
        }
    }

    /// The image that the station of this end has.
    pub fn image(&self, role: Role) -> &[u8]
        ensures { result.now ≡ image_by (side self.now.scene role).log }
    {
        self.cable.image(role)
    }
}
