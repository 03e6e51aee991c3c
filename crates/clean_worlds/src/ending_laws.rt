//! The law of what a script leaves that ends with a clean event.

ghost use Rattle.std.specs.Prelude.{[], List};
ghost use Rattle.dsd_end.specs.Cabling.{NoClash};
ghost use Rattle.cable_world.specs.Worlds.{HasPlayed, WorldView};
ghost use Rattle.cable_world.specs.declared.event.Event.{Event};
ghost use Rattle.clean_worlds.specs.CleanEndings.{HasCleanEnd, SettlesInClean, SettlesUnlessSetsClash};

/// A world whose script ends with a clean event between two ends whose ids match, and names no bytes to be heard before it: whatever was lost, repeated, damaged
/// and unplugged, and whatever stopped and failed, both images hold settled lists behind that event where nothing hinders it and no sets clash. From two
/// empty journals that a clean event alone is played on, no sets can clash.
pub fn clean_endings_settle()
    ensures lists { (world : WorldView) (events : List Event) → HasPlayed world → HasCleanEnd world.script events → SettlesUnlessSetsClash events world }
    ensures lives { (world : WorldView) (events : List Event) (played : HasPlayed world) → HasCleanEnd world.script events → NoClash played.lives.handheld played.lives.receiver → SettlesInClean events world }
    ensures empty { (world : WorldView) → HasPlayed world → HasCleanEnd world.script [] → SettlesInClean [] world }
{
    // Each image holds one list at most.
    dsd_journal::an_image_holds_one_list();
}
