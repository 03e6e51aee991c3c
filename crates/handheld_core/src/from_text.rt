//! Reading drafts from their text.

ghost use Rattle.std.specs.Prelude.{◌≡◌, IfOk, List, Ok};
ghost use Rattle.dsd_values.specs.Answers.{UnlessMemory};
ghost use Rattle.handheld_core.specs.DraftTexts.{Says};
ghost use Rattle.handheld_core.specs.declared.draft.Draft.{Draft};
ghost use Rattle.handheld_core.specs.Reading.{drafts_of};

use crate::drafts::Drafts;
use crate::reading::DraftsSoFar;
use dsd_record::DraftFault;
use plain_lines::PlainLines;
use std::alloc::Global;

impl Drafts {
    /// Reads the drafts that a text says.
    pub fn read(alloc: Global, text: &[u8]) -> Result<Drafts, DraftFault>
        // What is read is said so.
        ensures found { IfOk result (λ drafts. Says drafts text.now) }

        // What is said so is read, unless memory runs out.
        ensures only { (drafts : List Draft) → Says drafts text.now → UnlessMemory DraftFault.Memory result (Ok drafts) }

        // It is refused at the first line that has a reason against it, for its first one.
        ensures exact { UnlessMemory DraftFault.Memory result (drafts_of text.now) }
    {
        Drafts::read_lines(alloc, text)
    }

    /// Reads them line by line.
    fn read_lines(alloc: Global, text: &[u8]) -> Result<Drafts, DraftFault>
        ensures { UnlessMemory DraftFault.Memory result (drafts_of text.now) }
    {
        let mut lines = PlainLines::new(text);
        let mut so_far = DraftsSoFar::new(alloc);
        while let Some(line) = lines.next() {
            so_far.take(alloc, &line)?;
        }
        so_far.finish(alloc, lines.end())
    }
}
