//! `load`: from a number of deliveries to a world that plays their route.

ghost use Rattle.std.specs.Prelude.{◌≡◌, ◌≤◌, IfOk, OnErr};
ghost use Rattle.cable_world.specs.ScriptTexts.{Says};
ghost use Rattle.load_route.specs.Route.{route};
ghost use Rattle.load_route.specs.declared.deliveries.TheConstants.{MOST_DELIVERIES as MOST};
ghost use Rattle.dex_cli.specs.Replaying.{IsReplayed, worlds_of};
ghost use Rattle.dex_cli.specs.Verdicts.{Loads};

use crate::replaying::play_script;
use crate::verdict::Verdict;
use cable_world::{Script, World, WorldReport};
use dsd_record::DraftFault;
use load_route::route_text;
use std::alloc::{AllocError, Global};

/// Plays the route of so many deliveries. The world that played it is left to the caller; where memory is wanting, the caller keeps what it had.
pub fn load(alloc: Global, count: u32, world: &mut Option<World>) -> Result<Verdict, AllocError>
    requires { count ≤ MOST }
    ensures told { IfOk result (Loads count (worlds_of world.old world.new)) }
    ensures kept { OnErr result (world.new ≡ world.old) }
{
    match route_text(alloc, count) {
        Ok(text) => match load_text(alloc, count, &text, world) {
            Ok(report) => Ok(Verdict::Loaded(count, report)),
            Err(fault) => Err(fault),
        },
        Err(_) => Err(AllocError),
    }
}

/// Plays the route that a text says.
fn load_text(
    alloc: Global,
    count: u32,
    text: &[u8],
    world: &mut Option<World>,
) -> Result<WorldReport, AllocError>
    requires { Says (route count) text.now }
    ensures told { IfOk result (IsReplayed (route count) (worlds_of world.old world.new)) }
    ensures kept { OnErr result (world.new ≡ world.old) }
{
    match Script::read(alloc, text) {
        Ok(script) => play_script(alloc, script, world),
        Err(DraftFault::Memory) => Err(AllocError),
        Err(DraftFault::Refused { .. }) => unreachable!(),
    }
}
