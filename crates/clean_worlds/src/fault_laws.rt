//! Laws of clean events that nothing hinders.

ghost use Rattle.std.specs.Prelude.{List, None, Option, false, ◌++◌, ◌∷◌, [], ◌≡◌, ℕ};
ghost use Rattle.dsd_values.specs.declared.role.Role.{Role};
ghost use Rattle.dsd_record.specs.Choices.{Chooser};
ghost use Rattle.dsd_station.specs.ByPlan.{EachAnswered};
ghost use Rattle.dsd_station.specs.Failures.{failed_in};
ghost use Rattle.dsd_station.specs.Logged.{Log};
ghost use Rattle.dsd_station.specs.Replayed.{State, state_of};
ghost use Rattle.dsd_station.specs.declared.call.Call.{Call};
ghost use Rattle.dsd_station.specs.declared.call.Reception.{Reception};
ghost use Rattle.dsd_journal.specs.Headers.{IsHeader, IsId};
ghost use Rattle.dsd_journal.specs.declared.entry.Entry.{Entry};
ghost use Rattle.dsd_journal.specs.declared.header.Header.{Header};
ghost use Rattle.dsd_end.specs.FullTurns.{HearsFull};
ghost use Rattle.dsd_end.specs.PollStep.{Along, Done};
ghost use Rattle.dsd_end.specs.PollsHeard.{receptions_of};
ghost use Rattle.dsd_end.specs.Runs.{bytes_heard};
ghost use Rattle.dsd_end.specs.Standings.{Standing, first_standing, has_ended};
ghost use Rattle.cable_world.specs.Living.{CallSo};
ghost use Rattle.cable_world.specs.Noted.{Noted, steps_of};
ghost use Rattle.cable_world.specs.Obeying.{Obeys, Plays};
ghost use Rattle.cable_world.specs.Scenes.{Scene};
ghost use Rattle.cable_world.specs.Steps.{WorldStep};
ghost use Rattle.cable_world.specs.Worlds.{WorldView};
ghost use Rattle.cable_world.specs.declared.event.Event.{Event};
ghost use Rattle.cable_world.specs.declared.event.Event.TheVariants.{Clean};
ghost use Rattle.clean_worlds.specs.CleanBeginnings.{RunningHear};
ghost use Rattle.clean_worlds.specs.CleanPlays.{choosers, headers};
ghost use Rattle.clean_worlds.specs.CleanWorlds.{EndsInClean, IsFreeIn, PlaysCleanIn};
ghost use Rattle.clean_worlds.specs.Faultless.{AreSpared, ArmsNothing, HasRoom, IsSpared, IsUnhindered, RunningWork};
ghost use Rattle.clean_worlds.specs.WholeFrames.{GoWell};
ghost use Rattle.clean_worlds.specs.WorldHalls.{BothCome};

/// Calls that are answered by a plan in which nothing armed is left, of a station that has not stopped, do not fail.
pub fn spared_calls_go_well()
    ensures { (log : Log) (part : List Call) → (state_of log.calls).left ≡ None → IsSpared log → EachAnswered log.plan log.calls part → failed_in part ≡ 0 }
{}

/// A run whose journal has room for whatever the end may sign and take of what it hears never finds it full.
pub fn runs_with_room_are_never_full()
    ensures { (header : Header) (chooser : Chooser) (entries : List Entry) (polls : List (Option Reception)) (done : Done) (heard : Reception) (length : ℕ) → IsHeader header
        → Along chooser (first_standing header entries) polls done → has_ended done.standing.line ≡ false → HasRoom header.role chooser entries (bytes_heard (receptions_of polls) ++ bytes_heard (heard ∷ []))
        → HearsFull chooser done.standing heard length → ⊥ }
{}

/// A clean event between two ends whose ids match goes well where nothing hinders it: nothing is armed at its start that has not fallen, the journals have room
/// for what the ends may sign and take in it, and neither hears so many bytes that they are noise.
pub fn unhindered_events_go_well()
    ensures { (id other : List ℕ) (supplier receiver : Chooser) (state : Role → State) (scene : Scene) (before : Role → Option Standing) (noted : List Noted) (next : Scene) (last : Role → Option Standing)
        → IsId id → IsId other → RunningHear before scene → RunningWork scene → BothCome (choosers supplier receiver) (headers id other) state before noted last → CallSo (steps_of noted)
        → Plays Clean scene (steps_of noted) next → IsUnhindered (choosers supplier receiver) (headers id other) state scene (steps_of noted) → GoWell noted }
{}

/// A world that has played a script whose last event is a clean one, and in which nothing hinders that event: whatever the events before and whatever
/// failed in them, it is a clean session.
pub fn unhindered_worlds_end_well()
    ensures { (world : WorldView) (events : List Event) (e : EndsInClean events world) → IsFreeIn events world e → PlaysCleanIn events world e }
{}

/// Events without STOP and FAIL arm nothing: where nothing armed was left before them, nothing is behind them. So it is in a world before its clean event.
pub fn unarmed_scripts_leave_nothing_armed()
    ensures scenes { (events : List Event) (scene : Scene) (made : List WorldStep) (next : Scene) → ArmsNothing events → Obeys events scene made next → AreSpared scene → AreSpared next }
    ensures worlds { (world : WorldView) (events : List Event) (e : EndsInClean events world) → ArmsNothing events → AreSpared e.between }
{}
