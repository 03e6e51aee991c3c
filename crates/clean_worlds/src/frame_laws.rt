//! Laws of a frame that is fed to an end of a world.

ghost use Rattle.std.specs.Prelude.{List, Option, Some, false, ◌≡◌};
ghost use Rattle.dsd_values.specs.declared.role.Role.{Role};
ghost use Rattle.dsd_record.specs.Choices.{Chooser};
ghost use Rattle.dsd_station.specs.declared.feeding.Given.TheVariants.{Bytes};
ghost use Rattle.dsd_station.specs.Replayed.{State};
ghost use Rattle.dsd_journal.specs.Headers.{IsHeader};
ghost use Rattle.dsd_journal.specs.declared.header.Header.{Header};
ghost use Rattle.dex_line.specs.FrameShapes.{FrameShape};
ghost use Rattle.dex_line.specs.FrameSpelling.{IsSpoken, spelling};
ghost use Rattle.dsd_end.specs.Standings.{Standing, has_ended};
ghost use Rattle.cable_world.specs.Diligence.{ComesBy};
ghost use Rattle.cable_world.specs.Living.{CallSo};
ghost use Rattle.cable_world.specs.Noted.{Noted, steps_of};
ghost use Rattle.cable_world.specs.Obeying.{Hears};
ghost use Rattle.cable_world.specs.Scenes.{Scene, side};
ghost use Rattle.clean_worlds.specs.WholeFrames.{Attends, GoWell, TakesFrame};

/// A running end that hears the bytes of a frame, and comes by the polls of it as its table says without a fault, has heard that frame in
/// pieces of 64 bytes and the rest. What it has said waits behind what waited before, each frame by itself, and the end attends again.
pub fn frames_are_taken_whole()
    ensures { (role : Role) (chooser : Chooser) (header : Header) (state : State) (standing : Standing) (frame : FrameShape) (scene : Scene) (noted : List Noted) (next : Scene) (last : Option Standing)
        → IsHeader header → Attends header standing (side scene role) → has_ended standing.line ≡ false → IsSpoken frame → Hears role (Bytes (spelling frame)) scene (steps_of noted) next
        → ComesBy role chooser header state (Some standing) noted last → CallSo (steps_of noted) → GoWell noted → TakesFrame role chooser header standing frame scene next last }
{}
