//! Laws of clean events of which it can be told before them that they go well.

ghost use Rattle.std.specs.Prelude.{[], List, Option, ℕ};
ghost use Rattle.dsd_values.specs.declared.role.Role.{Role};
ghost use Rattle.dsd_record.specs.Choices.{Chooser};
ghost use Rattle.dsd_station.specs.Replayed.{State};
ghost use Rattle.dsd_journal.specs.Headers.{IsId};
ghost use Rattle.dsd_end.specs.Standings.{Standing};
ghost use Rattle.cable_world.specs.Living.{CallSo};
ghost use Rattle.cable_world.specs.Noted.{Noted, steps_of};
ghost use Rattle.cable_world.specs.Obeying.{Plays};
ghost use Rattle.cable_world.specs.Scenes.{Scene};
ghost use Rattle.cable_world.specs.Worlds.{HasPlayed, WorldView};
ghost use Rattle.cable_world.specs.declared.event.Event.{Event};
ghost use Rattle.cable_world.specs.declared.event.Event.TheVariants.{Clean};
ghost use Rattle.clean_worlds.specs.CleanBeginnings.{RunningHear};
ghost use Rattle.clean_worlds.specs.CleanEndings.{HasCleanEnd};
ghost use Rattle.clean_worlds.specs.CleanPlays.{choosers, headers};
ghost use Rattle.clean_worlds.specs.Faultless.{RunningWork};
ghost use Rattle.clean_worlds.specs.Finishing.{FinishesFromNothing, FinishesIfForetold};
ghost use Rattle.clean_worlds.specs.Foreseen.{AreForeseen};
ghost use Rattle.clean_worlds.specs.WholeFrames.{GoWell};
ghost use Rattle.clean_worlds.specs.WorldHalls.{BothCome};

/// A clean event between two ends whose ids match goes well where that can be foreseen as it opens its ends: nothing is armed at its start that has not
/// fallen, and own turns from what both journals hold, by what both ends choose, speak at most 1,299 blocks and find room.
pub fn foreseen_events_go_well()
    ensures { (id other : List ℕ) (supplier receiver : Chooser) (most : ℕ) (state : Role → State) (scene : Scene) (before : Role → Option Standing) (noted : List Noted) (next : Scene) (last : Role → Option Standing)
        → IsId id → IsId other → RunningHear before scene → RunningWork scene → BothCome (choosers supplier receiver) (headers id other) state before noted last → CallSo (steps_of noted)
        → Plays Clean scene (steps_of noted) next → AreForeseen most id other supplier receiver state scene (steps_of noted) → GoWell noted }
{}

/// A script that ends with a clean event which was foretold to go well finishes: both sessions are complete, each end was polled at most 60 times and 24 times
/// for each block that was foretold, both images hold settled lists, and each delivery whose talk ends in an acceptance is final in both. So it is
/// behind any events that name no bytes to be heard. Of a script of one clean event, over two empty journals, that is told by the drafts and the counts alone.
pub fn foretold_endings_finish()
    ensures lists { (world : WorldView) (events : List Event) (most : ℕ) → HasPlayed world → HasCleanEnd world.script events → FinishesIfForetold most events world }
    ensures empty { (world : WorldView) (most : ℕ) → HasPlayed world → HasCleanEnd world.script [] → FinishesFromNothing most world }
{
    // Each image holds one list at most, and neither core looks at integrity values.
    dsd_journal::an_image_holds_one_list();
    clean_sessions::cores_ignore_checks();
}
