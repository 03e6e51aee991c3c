//! Laws of what a clean event heals.

ghost use Rattle.std.specs.Prelude.{[], All, List, Option, false, true, ℕ, ◌++◌, ◌∷◌, ◌≡◌};
ghost use Rattle.base_record_894.specs.RecordText.{IsBase};
ghost use Rattle.dsd_values.specs.declared.role.Role.TheVariants.{Supplier};
ghost use Rattle.dsd_values.specs.declared.role.Role.{Role};
ghost use Rattle.dsd_record.specs.Choices.{Chooser};
ghost use Rattle.dsd_station.specs.Replayed.{State};
ghost use Rattle.dsd_end.specs.Cabling.{NoClash};
ghost use Rattle.dsd_end.specs.Standings.{Standing};
ghost use Rattle.clean_sessions.specs.Sessions.{post_behind};
ghost use Rattle.cable_world.specs.Living.{HasNoHear};
ghost use Rattle.cable_world.specs.Scenes.{Scene};
ghost use Rattle.cable_world.specs.Steps.{WorldStep};
ghost use Rattle.cable_world.specs.Worlds.{HasPlayed, WorldView, chooser_of};
ghost use Rattle.cable_world.specs.declared.event.Event.{Event};
ghost use Rattle.cable_world.specs.declared.event.Event.TheVariants.{Clean};
ghost use Rattle.clean_worlds.specs.CleanBeginnings.{PlaysClean};
ghost use Rattle.clean_worlds.specs.CleanWorlds.{IdsMatch};
ghost use Rattle.clean_worlds.specs.Healing.{Heals, HealsInClean, HealsUnlessSetsClash, IsFinalUnlessDeclined};

/// However blocks were lost, repeated, reordered or visibly damaged by a script that names no bytes to be heard, and whatever stopped and failed in it:
/// a clean event behind it, whose own steps go well, between two ends whose ids match and whose drafts are base records, leaves every delivery
/// settled where no sets clash: none in both lives of the world, or at least none of what both journals hold as that event opens their ends.
pub fn worlds_heal()
    ensures lives { (world : WorldView) (events : List Event) (played : HasPlayed world) → IdsMatch world.script → HasNoHear events → All IsBase (chooser_of world.script Supplier).drafts
        → world.script.events ≡ events ++ Clean ∷ [] → NoClash played.lives.handheld played.lives.receiver → HealsInClean events world }
    ensures lists { (world : WorldView) (events : List Event) → HasPlayed world → IdsMatch world.script → HasNoHear events → All IsBase (chooser_of world.script Supplier).drafts
        → world.script.events ≡ events ++ Clean ∷ [] → HealsUnlessSetsClash events world }
{
    dsd_journal::an_image_holds_one_list();
}

/// Behind a clean event that heals, each delivery that an end knows is final at both, unless an end has declined it: between ends that decline nothing
/// all are final.
pub fn healed_deliveries_are_final()
    ensures { (id other : List ℕ) (supplier receiver : Chooser) (state : Role → State) (steps : List WorldStep) (next : Scene) (last : Role → Option Standing)
        (plays : PlaysClean id other supplier receiver state steps next last) → Heals id other supplier receiver state steps next last plays → (number : List ℕ)
        → IsFinalUnlessDeclined supplier receiver number (post_behind true plays.played.more plays.played.new).standing.desk.entries (post_behind false plays.played.more plays.played.new).standing.desk.entries }
{}
