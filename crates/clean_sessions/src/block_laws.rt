//! Laws of how many blocks a transmission has.

ghost use Rattle.std.specs.Prelude.{List, [], length, ℕ, ◌+◌, ◌++◌, ◌∷◌, ◌≡◌, ◌≤◌};
ghost use Rattle.dex_line.specs.BlockCut.{blocks_of};
ghost use Rattle.dex_line.specs.TextUnits.{UnitsFit, paired, units_of};
ghost use Rattle.dex_line.specs.declared.cutter.TheConstants.{BLOCK_WRITTEN};
ghost use Rattle.clean_sessions.specs.BlocksAlone.{AllFit, AreShorter, EndsApart, all_units, blocks_alone};

/// One text of many, behind one unit and before another, has at most two blocks more than these, each cut alone.
pub fn envelopes_cost_two_blocks()
    ensures { (text head tail : List ℕ) (texts : List (List ℕ)) → UnitsFit text → AllFit texts → length head ≤ BLOCK_WRITTEN → length tail ≤ BLOCK_WRITTEN
        → units_of text ≡ head ∷ (all_units texts ++ tail ∷ []) → length (blocks_of text) ≤ blocks_alone texts + 2 }
{}

/// A text whose units are shorter has no more blocks.
pub fn shorter_units_are_fewer_blocks()
    ensures { (text other : List ℕ) → UnitsFit text → UnitsFit other → AreShorter (units_of text) (units_of other) → length (blocks_of text) ≤ length (blocks_of other) }
{}

/// Lines of which the last is no G85 are units by themselves.
pub fn units_of_joins()
    ensures { (lines others : List (List ℕ)) → EndsApart lines → paired (lines ++ others) ≡ paired lines ++ paired others }
{}
