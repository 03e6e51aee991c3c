//! Laws of worlds that obey a script.

ghost use Rattle.std.specs.Prelude.{[], List, ◌≡◌, ◌≤◌, ◌++◌, length};
ghost use Rattle.dsd_values.specs.declared.role.Role.TheVariants.{Receiver, Supplier};
ghost use Rattle.dsd_values.specs.declared.role.Role.{Role};
ghost use Rattle.dsd_station.specs.declared.call.Call.{Call};
ghost use Rattle.dsd_station.specs.ByPlan.{EachAnswered};
ghost use Rattle.dsd_station.specs.Logged.{IsPlayed, Log};
ghost use Rattle.dsd_station.specs.Replayed.{IsFine, State, state_of};
ghost use Rattle.dsd_journal.specs.declared.header.Header.{Header};
ghost use Rattle.dsd_end.specs.Agreement.{Agree};
ghost use Rattle.dsd_end.specs.Cabling.{IsHonestCable, NoClash};
ghost use Rattle.dsd_end.specs.Runs.{Run};
ghost use Rattle.cable_world.specs.Leaving.{Begins, IsBegun, IsLifeOf, LeavesNothing, record_of, state_after};
ghost use Rattle.cable_world.specs.Living.{AreRunsOf, CallSo, HasNoHear, parts_of};
ghost use Rattle.cable_world.specs.Obeying.{Obeys, Then, first_scene};
ghost use Rattle.cable_world.specs.Scenes.{Scene, side};
ghost use Rattle.cable_world.specs.Steps.{WorldStep};
ghost use Rattle.cable_world.specs.declared.event.Event.{Event};

/// However blocks are lost, repeated, reordered or visibly damaged by a script, and wherever either end is unplugged or stopped: the runs
/// of a world that obeys it are two lives, they have an honest cable where the script names no bytes to be heard, and where the cable is
/// honest and no sets clash the two ends agree.
pub fn worlds_agree()
    ensures { (events : List Event) (supplier receiver : Log) (steps : List WorldStep) (last : Scene) (one other : Header)
        → Obeys events (first_scene supplier receiver) steps last → supplier.plan.fed ≡ [] → receiver.plan.fed ≡ [] → CallSo steps
        → IsBegun Supplier one supplier steps → IsBegun Receiver other receiver steps
        → (s : List Run) × (r : List Run) × IsLifeOf Supplier one (state_of supplier.calls) steps s × IsLifeOf Receiver other (state_of receiver.calls) steps r
        × (HasNoHear events → IsHonestCable s r) × (IsHonestCable s r → NoClash s r → Agree s r) }
{
    dsd_journal::an_image_holds_one_list();
}

/// What each end of a world hears was spoken whole by the other, where the script names no bytes to be heard.
pub fn worlds_have_a_cable()
    ensures { (events : List Event) (supplier receiver : Log) (steps : List WorldStep) (last : Scene) (s r : List Run)
        → Obeys events (first_scene supplier receiver) steps last → HasNoHear events → supplier.plan.fed ≡ [] → receiver.plan.fed ≡ []
        → CallSo steps → AreRunsOf (parts_of Supplier steps).runs s → AreRunsOf (parts_of Receiver steps).runs r → IsHonestCable s r }
{}

/// The runs of one end, as the steps show them, are a life, by what its openings and polls tell and by what its station may leave.
pub fn steps_are_lives()
    ensures { (role : Role) (header : Header) (steps : List WorldStep) (state : State) → IsFine state → LeavesNothing header state → Begins role header state steps
        → (runs : List Run) × IsLifeOf role header state steps runs }
{
    dsd_journal::an_image_holds_one_list();
}

/// What a script asks of the calls of a step is what a station in memory keeps to.
pub fn stations_answer_by_plan()
    ensures { (old new : Log) (part : List Call) → IsPlayed new → new.plan ≡ old.plan → old.plan.since ≤ length old.calls → new.calls ≡ old.calls ++ part
        → EachAnswered old.plan old.calls part }
{}

/// A script may be cut anywhere.
pub fn scripts_are_cut()
    ensures parts { (a b : List Event) (scene : Scene) (made : List WorldStep) (next : Scene) → Obeys (a ++ b) scene made next → Then (Obeys a) (Obeys b) scene made next }
    ensures both { (a b : List Event) (scene : Scene) (first : List WorldStep) (between : Scene) (rest : List WorldStep) (next : Scene)
        → Obeys a scene first between → Obeys b between rest next → Obeys (a ++ b) scene (first ++ rest) next }
{}

/// The steps are the record: each station's record is what it was and what the steps of its end added.
pub fn steps_are_the_record()
    ensures calls { (role : Role) (events : List Event) (scene : Scene) (made : List WorldStep) (next : Scene) → Obeys events scene made next
        → (side next role).log.calls ≡ (side scene role).log.calls ++ record_of role made }
    ensures state { (role : Role) (events : List Event) (scene : Scene) (made : List WorldStep) (next : Scene) → Obeys events scene made next
        → state_of (side next role).log.calls ≡ state_after role (state_of (side scene role).log.calls) made }
{}
