//! Laws of worlds whose last event is a clean one.

ghost use Rattle.std.specs.Prelude.{[], List, None, Option, ◌++◌, ◌∷◌, ◌≡◌, ℕ};
ghost use Rattle.dsd_values.specs.declared.role.Role.{Role};
ghost use Rattle.dsd_values.specs.declared.role.Role.TheVariants.{Receiver, Supplier};
ghost use Rattle.dsd_record.specs.Choices.{Chooser};
ghost use Rattle.dsd_station.specs.Logged.{Log};
ghost use Rattle.dsd_station.specs.Replayed.{State};
ghost use Rattle.dsd_journal.specs.declared.entry.Entry.{Entry};
ghost use Rattle.dsd_end.specs.Standings.{Standing};
ghost use Rattle.cable_world.specs.Noted.{Noted, steps_of};
ghost use Rattle.cable_world.specs.Obeying.{Obeys, first_scene};
ghost use Rattle.cable_world.specs.Scenes.{Scene};
ghost use Rattle.cable_world.specs.Worlds.{HasPlayed, WorldView};
ghost use Rattle.cable_world.specs.declared.event.Event.{Event};
ghost use Rattle.cable_world.specs.declared.event.Event.TheVariants.{Clean};
ghost use Rattle.clean_worlds.specs.CleanBeginnings.{RunningHear};
ghost use Rattle.clean_worlds.specs.CleanPlays.{PlaysSession, headers};
ghost use Rattle.clean_worlds.specs.CleanWorlds.{EndsInClean, IdsMatch, IsComplete};
ghost use Rattle.clean_worlds.specs.WorldHalls.{BothCome};

/// Behind a clean session both ends are complete, and neither runs.
pub fn clean_sessions_leave_both_complete()
    ensures { (id other : List ℕ) (supplier receiver : Chooser) (supplier_entries receiver_entries : List Entry) (last : Scene) (standing : Role → Option Standing)
        → PlaysSession id other supplier receiver supplier_entries receiver_entries last standing → (role : Role) → IsComplete role last (standing role) }
{}

/// Whatever the events of a script, and whatever fails in them: behind them each end that runs can hear.
pub fn running_ends_can_hear()
    ensures { (id other : List ℕ) (chooser : Role → Chooser) (events : List Event) (handheld receiver : Log) (state : Role → State) (noted : List Noted) (next : Scene) (standing : Role → Option Standing)
        → Obeys events (first_scene handheld receiver) (steps_of noted) next → BothCome chooser (headers id other) state (λ role. None) noted standing → RunningHear standing next }
{}

/// A world that has played a script with a clean event behind any others, between ends whose ids match: the steps of that event are a clean session
/// over what the journals hold by then, unless a call of them fails or a fault is answered.
pub fn worlds_end_in_clean()
    ensures { (world : WorldView) (events : List Event) → HasPlayed world → IdsMatch world.script → world.script.events ≡ events ++ Clean ∷ [] → EndsInClean events world }
{}
