//! `replay`: from the source to a world that plays its script.

ghost use Rattle.std.specs.Prelude.{◌≡◌, ◌+◌, ◌≤◌, IfOk, OnErr};
ghost use Rattle.dsd_values.specs.Answers.{UnlessMemory};
ghost use Rattle.dsd_station.specs.Causes.{TakesUpTo};
ghost use Rattle.cable_world.specs.Reading.{script_of};
ghost use Rattle.cable_world.specs.ScriptTexts.{Says};
ghost use Rattle.cable_world.specs.declared.stage.Stage.TheVariants.{New, Played};
ghost use Rattle.dex_cli.specs.Replaying.{HasReplayed, IsReplayed, worlds_of};
ghost use Rattle.dex_cli.specs.Verdicts.{Replays, ReplaysInput, read_of};

use crate::job::INPUT_BYTES;
use crate::refusal::{Reason, Refusal};
use crate::serving::refused;
use crate::verdict::Verdict;
use cable_world::{Script, World, WorldReport, open_world};
use clean_worlds::{clean_endings_settle, foretold_endings_finish};
use dsd_record::DraftFault;
use dsd_station::{ReadFault, Source, read_up_to};
use std::alloc::{AllocError, Global};
use transaction_set::SetReason;

/// Reads a script to the end of the source, and plays it. The world that played it is left to the caller; where the script is refused, or memory is
/// wanting, the caller keeps what it had.
pub fn replay<S: Source>(
    alloc: Global,
    source: &mut S,
    world: &mut Option<World>,
) -> Result<Verdict, AllocError>
    ensures told { IfOk result (Replays (read_of S.left S.faults source.old source.new) (worlds_of world.old world.new)) }
    ensures taken { OnErr result (TakesUpTo (INPUT_BYTES + 1) (S.left source.old) (S.left source.new)) }
    ensures kept { OnErr result (world.new ≡ world.old) }
    ensures later { S.faults source.old ≤ S.faults source.new }
{
    match read_up_to(alloc, source, INPUT_BYTES + 1) {
        Ok(input) => replay_input(alloc, input, world),
        Err(ReadFault::Failed) => Ok(Verdict::SourceFault),
        Err(ReadFault::Memory) => Err(AllocError),
    }
}

/// Plays the script that an input says, which is refused where it is longer than any may be. The input is let go before anything is played.
fn replay_input(
    alloc: Global,
    input: Vec<u8>,
    world: &mut Option<World>,
) -> Result<Verdict, AllocError>
    ensures told { IfOk result (ReplaysInput input.items (worlds_of world.old world.new)) }
    ensures kept { OnErr result (world.new ≡ world.old) }
{
    if input.len() > INPUT_BYTES {
        return Ok(Verdict::Refused(Refusal {
            place: INPUT_BYTES,
            reason: Reason::Set(SetReason::Limit),
        }));
    }
    match read_script(alloc, input) {
        Ok(script) => match play_script(alloc, script, world) {
            Ok(report) => Ok(Verdict::Replayed(report)),
            Err(fault) => Err(fault),
        },
        Err(DraftFault::Refused { place, reason }) => Ok(refused(place, reason)),
        Err(DraftFault::Memory) => Err(AllocError),
    }
}

/// The script that an input says. It keeps nothing of the input, which is let go.
fn read_script(alloc: Global, input: Vec<u8>) -> Result<Script, DraftFault>
    ensures found { IfOk result (λ script. Says script input.items) }
    ensures exact { UnlessMemory DraftFault.Memory result (script_of input.items) }
{
    Script::read(alloc, &input)
}

/// Plays a script, and leaves the world that played it; where memory is wanting, the caller keeps what it had.
pub(crate) fn play_script(
    alloc: Global,
    script: Script,
    world: &mut Option<World>,
) -> Result<WorldReport, AllocError>
    ensures told { IfOk result (IsReplayed script (worlds_of world.old world.new)) }
    ensures kept { OnErr result (world.new ≡ world.old) }
{
    match open_world(alloc, script) {
        Ok(new) => play_on(new, world),
        Err(_) => Err(AllocError),
    }
}

/// Plays the script of a new world, and leaves that.
fn play_on(new: World, world: &mut Option<World>) -> Result<WorldReport, AllocError>
    requires { new.stage ≡ New }
    ensures told { IfOk result (IsReplayed new.script (worlds_of world.old world.new)) }
    ensures kept { OnErr result (world.new ≡ world.old) }
{
    // (Worlds are dropped by a call, which takes them whole.)
    let mut played = new;
    match play(&mut played) {
        Ok(report) => {
            drop(world.replace(played));
            Ok(report)
        }
        Err(fault) => {
            drop(played);
            Err(fault)
        }
    }
}

/// Plays all events on a new world, and answers the report of it.
fn play(world: &mut World) -> Result<WorldReport, AllocError>
    requires { world.old.stage ≡ New }
    ensures { IfOk result (HasReplayed world.old.script world.new) }
{
    match world.play() {
        Ok(()) => finish(world),
        Err(_) => Err(AllocError),
    }
}

/// The report of a world that was played.
fn finish(world: &mut World) -> Result<WorldReport, AllocError>
    requires { world.old.stage ≡ Played }
    ensures { IfOk result (HasReplayed world.old.script world.new) }
{
    // What a clean event at the script's end leaves is known of each world that has played.
    clean_endings_settle();
    foretold_endings_finish();
    match world.finish() {
        Ok(report) => Ok(report),
        Err(_) => Err(AllocError),
    }
}
