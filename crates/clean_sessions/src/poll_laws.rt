//! Laws of what the turns of a clean session cost.

ghost use Rattle.std.specs.Prelude.{Bool, List, false, ◌*◌, ◌+◌, ◌≤◌};
ghost use Rattle.clean_sessions.specs.Turns.{EndsWhenEmpty, Turn, all_alone, polls_of};

/// What the turns of a session cost either end at most, by the blocks of their sets.
pub fn turns_are_few()
    ensures few { (supplier : Bool) (turns : List Turn) → EndsWhenEmpty false turns → polls_of supplier turns ≤ 10 + 16 * all_alone turns }
    ensures bound { (supplier : Bool) (turns : List Turn) → EndsWhenEmpty false turns → polls_of supplier turns ≤ 60 + 24 * all_alone turns }
{}
