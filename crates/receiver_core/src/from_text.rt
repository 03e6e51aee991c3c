//! Reading counts from their text.

ghost use Rattle.std.specs.Prelude.{◌≡◌, IfOk, List, Ok};
ghost use Rattle.dsd_values.specs.Answers.{UnlessMemory};
ghost use Rattle.receiver_core.specs.CountTexts.{Says};
ghost use Rattle.receiver_core.specs.declared.count.Count.{Count};
ghost use Rattle.receiver_core.specs.Reading.{counts_of};

use crate::counts::Counts;
use crate::reading::CountsSoFar;
use dsd_record::DraftFault;
use plain_lines::PlainLines;
use std::alloc::Global;

impl Counts {
    /// Reads the counts that a text says.
    pub fn read(alloc: Global, text: &[u8]) -> Result<Counts, DraftFault>
        // What is read is said so.
        ensures found { IfOk result (λ counts. Says counts text.now) }

        // What is said so is read, unless memory runs out.
        ensures only { (counts : List Count) → Says counts text.now → UnlessMemory DraftFault.Memory result (Ok counts) }

        // It is refused at the first line that has a reason against it, for its first one.
        ensures exact { UnlessMemory DraftFault.Memory result (counts_of text.now) }
    {
        Counts::read_lines(alloc, text)
    }

    /// Reads them line by line.
    fn read_lines(alloc: Global, text: &[u8]) -> Result<Counts, DraftFault>
        ensures { UnlessMemory DraftFault.Memory result (counts_of text.now) }
    {
        let mut lines = PlainLines::new(text);
        let mut so_far = CountsSoFar::new(alloc);
        while let Some(line) = lines.next() {
            so_far.take(alloc, &line)?;
        }
        so_far.finish(alloc, lines.end())
    }
}
