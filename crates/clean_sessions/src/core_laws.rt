//! Laws of the choices of both cores.

ghost use Rattle.std.specs.Prelude.{List, ℕ};
ghost use Rattle.dsd_record.specs.Choices.{AreDraftsApart};
ghost use Rattle.handheld_core.specs.Choosing.{supplier};
ghost use Rattle.receiver_core.specs.Choosing.{receiver};
ghost use Rattle.receiver_core.specs.CountTexts.{Says};
ghost use Rattle.clean_sessions.specs.ChosenAnswers.{ChoosesRightly};

use dsd_record::{Decider, DsdRecord};
use handheld_core::Drafts;
use receiver_core::Counts;
use std::alloc::Global;

/// The supplier with its drafts chooses rightly: what it proposes, and what it signs with, may be written, and its adjustments are sound. That is so whatever
/// record it is asked about.
pub fn drafts_choose_rightly(alloc: Global, drafts: &Drafts, seen: &DsdRecord)
    ensures right { ChoosesRightly (supplier drafts.now) }
    ensures apart { AreDraftsApart (supplier drafts.now).drafts }
{
    let _ = drafts.drafts();
    let _ = drafts.choose(alloc, seen, None);
}

/// So does the receiver with counts that a text says.
pub fn counts_choose_rightly(alloc: Global, counts: &Counts, seen: &DsdRecord)
    ensures { (text : List ℕ) → Says counts.now text → ChoosesRightly (receiver counts.now) }
{
    let _ = counts.drafts();
    let _ = counts.choose(alloc, seen, None);
}
