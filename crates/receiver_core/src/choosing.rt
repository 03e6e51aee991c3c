//! What a receiver does on a proposal.

ghost use Rattle.std.specs.Prelude.{◌≡◌};
ghost use Rattle.receiver_core.specs.Choosing.{choice_with as choice_on, receiver};

use crate::changes::changes_of;
use crate::counts::Counts;
use base_record_894::Base;
use dsd_record::{Choice, Decider, DsdRecord};
use dsd_values::{Cents, DeliveryNumber, Level, Lines, Memory, Signature};
use std::alloc::Global;

/// From this level on a count may accept counters.
const COUNTER_LEVEL: u8 = 2;

impl Decider for Counts {
    ghost chooser = { λ counts. receiver counts };

    fn drafts(&self) -> usize {
        0
    }

    fn draft(&self, _index: usize) -> Option<&Base> {
        None
    }

    fn signature(&self, number: &DeliveryNumber) -> Option<&Signature> {
        let Some(count) = self.count_of(number) else {
            return None;
        };
        Some(&count.signature)
    }

    fn choose(
        &self,
        alloc: Global,
        seen: &DsdRecord,
        _own_amount: Option<Cents>,
    ) -> Result<Choice, Memory> {
        // What was counted is right.
        let _ = self.len();
        let Some(count) = self.count_of(seen.number()) else {
            return Ok(Choice::Wait);
        };
        let changes = changes_of(alloc, &count.lines, seen)?;
        Ok(choice_with(changes, count.counters, seen.level()))
    }
}

/// The choice on a proposal of this level, by the lines that differ and by whether counters are accepted.
fn choice_with(changes: Lines, counters: bool, level: Level) -> Choice
    ensures { result ≡ choice_on changes counters level }
{
    let agrees = changes.as_slice().is_empty();
    if agrees || (counters && level.get() >= COUNTER_LEVEL) {
        Choice::Accept
    } else if level.get() == 0 {
        Choice::Adjust(changes)
    } else {
        Choice::Wait
    }
}
