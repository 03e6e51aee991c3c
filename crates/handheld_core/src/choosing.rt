//! What a supplier does on a proposal.

ghost use Rattle.std.specs.Prelude.{◌≡◌, IfOk};
ghost use Rattle.handheld_core.specs.Choosing.{choice_by_amount, counter_at, is_within as are_close, supplier};

use crate::counters::countered_lines;
use crate::draft::Draft;
use crate::drafts::Drafts;
use base_record_894::Base;
use dsd_record::{Choice, Decider, DsdRecord};
use dsd_values::{Cents, DeliveryNumber, Memory, Signature};
use plain_lines::CountedLines;
use std::alloc::Global;

/// The level of the proposals that are countered.
const COUNTERED_LEVEL: u8 = 1;

impl Decider for Drafts {
    ghost chooser = { λ drafts. supplier drafts };

    fn drafts(&self) -> usize {
        self.len()
    }

    fn draft(&self, index: usize) -> Option<&Base> {
        let Some(draft) = self.draft_at(index) else {
            return None;
        };
        Some(&draft.base)
    }

    fn signature(&self, number: &DeliveryNumber) -> Option<&Signature> {
        let Some(draft) = self.draft_of(number) else {
            return None;
        };
        Some(draft.base.signature())
    }

    fn choose(
        &self,
        alloc: Global,
        seen: &DsdRecord,
        own_amount: Option<Cents>,
    ) -> Result<Choice, Memory> {
        // The counters of all drafts are right.
        let _ = self.len();
        match (self.draft_of(seen.number()), own_amount) {
            (Some(draft), Some(own)) => choose_by(alloc, draft, seen, own),
            _ => Ok(Choice::Wait),
        }
    }
}

/// The choice on a proposal by a draft, where the last own proposal came to so much.
fn choose_by(alloc: Global, draft: &Draft, seen: &DsdRecord, own: Cents) -> Result<Choice, Memory>
    ensures { IfOk result (λ choice. choice ≡ choice_by_amount draft.now seen.now own) }
{
    if is_within(draft.tolerance, own, seen.totals().amount) {
        Ok(Choice::Accept)
    } else {
        counter(alloc, &draft.counters, seen)
    }
}

/// Whether two amounts differ by at most the tolerance.
fn is_within(tolerance: Cents, own: Cents, other: Cents) -> bool
    ensures { result ≡ are_close tolerance own other }
{
    let (tolerance, own, other) = (tolerance.get(), own.get(), other.get());
    own <= other + tolerance && other <= own + tolerance
}

/// Counters a proposal of level 1, where there are counters.
fn counter(alloc: Global, counters: &CountedLines, seen: &DsdRecord) -> Result<Choice, Memory>
    ensures { IfOk result (λ choice. choice ≡ counter_at seen.now.level seen.now.lines counters.now) }
{
    if counters.as_slice().is_empty() || seen.level().get() != COUNTERED_LEVEL {
        return Ok(Choice::Wait);
    }
    Ok(Choice::Adjust(countered_lines(alloc, counters, seen)?))
}
