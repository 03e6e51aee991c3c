//! Laws of the rounds of a world in which every frame is delivered.

ghost use Rattle.std.specs.Prelude.{[], List, Option, false, ◌∷◌, ◌≡◌};
ghost use Rattle.dsd_values.specs.declared.role.Role.{Role};
ghost use Rattle.dsd_record.specs.Choices.{Chooser};
ghost use Rattle.dsd_station.specs.Replayed.{State};
ghost use Rattle.dsd_journal.specs.Headers.{IsHeader};
ghost use Rattle.dsd_journal.specs.declared.header.Header.{Header};
ghost use Rattle.dex_line.specs.FrameShapes.{FrameShape};
ghost use Rattle.dsd_end.specs.Standings.{Standing, has_ended};
ghost use Rattle.clean_sessions.specs.Halls.{Hall};
ghost use Rattle.cable_world.specs.Living.{CallSo};
ghost use Rattle.cable_world.specs.Noted.{Noted, steps_of};
ghost use Rattle.cable_world.specs.Obeying.{IsRound};
ghost use Rattle.cable_world.specs.Scenes.{Scene};
ghost use Rattle.clean_worlds.specs.WholeFrames.{GoWell};
ghost use Rattle.clean_worlds.specs.WorldHalls.{BothCome, IsCleanRound, ShowsHall};

/// A round with one waiting frame, whose end runs, is a step of the hall that the scene shows, and the next scene shows the hall behind it.
pub fn rounds_are_clean_steps()
    ensures { (chooser : Role → Chooser) (header : Role → Header) (state : Role → State) (near far : Role) (hall : Hall) (scene : Scene) (standing : Role → Option Standing) (frame : FrameShape)
        (noted : List Noted) (next : Scene) (last : Role → Option Standing) → ((role : Role) → IsHeader (header role)) → ShowsHall chooser header near far hall scene standing → hall.flight ≡ frame ∷ []
        → has_ended hall.near.standing.line ≡ false → IsRound scene (steps_of noted) next → BothCome chooser header state standing noted last → CallSo (steps_of noted) → GoWell noted
        → IsCleanRound chooser header near far hall next last }
{}
