//! The sets of a text whose segments come one after another.

ghost use Rattle.std.specs.Prelude.{◌≡◌, ◌++◌, ℕ, List, Option, Some, None, IfOk, OnOk};
ghost use Rattle.dsd_record.specs.TakenSets.{HasTaken};
ghost use Rattle.dxs_envelope.specs.TextParts.{with_segment};
ghost use Rattle.dxs_envelope.specs.TextPieces.{part_seen};
ghost use Rattle.dxs_envelope.specs.Views.{SetAt};
ghost use Rattle.dex_cli.specs.TextSteps.{Brings, HasBegun, IsBrought};

use crate::refusal::{Reason, Refusal};
use crate::summary::{SetSummary, summary_of};
use dsd_record::SetReader;
use dsd_values::Memory;
use dxs_envelope::Part;
use segments::Segment;
use std::alloc::Global;
use transaction_set::SetFault;

/// A set that is begun, and where it starts in its text.
#[derive(Drop)]
pub struct BegunSet {
    start: usize,
    reader: SetReader,
}

/// What a part of a text brings.
#[derive(Drop)]
pub enum Brought {
    /// No set ends in it.
    Nothing,
    /// A set ends in it, of which this is printed.
    Set(SetSummary),
    /// What ends in it is no set.
    Refused(Refusal),
}

/// Takes a part of a text, behind which a set may be begun.
pub fn take_part(
    alloc: Global,
    begun: &mut Option<BegunSet>,
    part: Part<'_>,
) -> Result<Brought, Memory>
    ensures { IfOk result (λ brought. (set : Option SetAt) → HasBegun set begun.old → Brings set (part_seen part.entry) brought begun.new) }
{
    match part {
        Part::Header(_) | Part::Trailer(_) => {
            *begun = None;
            Ok(Brought::Nothing)
        }
        Part::InSet(segment) => match take_segment(alloc, begun, &segment) {
            Ok(()) => Ok(Brought::Nothing),
            Err(fault) => Err(fault),
        },
        Part::SetEnd(segment) => end_set(alloc, begun, &segment),
    }
}

/// A segment of the set that is begun, or of a new one. A refusal is kept until the set ends.
#[inline(always)]
fn take_segment(
    alloc: Global,
    begun: &mut Option<BegunSet>,
    segment: &Segment<'_>,
) -> Result<(), Memory>
    ensures { OnOk result ((set : Option SetAt) → HasBegun set begun.old → HasBegun (Some (with_segment set segment.now)) begun.new) }
{
    match begun {
        Some(set) => set.take(segment),
        None => begin(alloc, begun, segment),
    }
}

/// The first segment of a set.
#[inline(never)]
fn begin(alloc: Global, begun: &mut Option<BegunSet>, segment: &Segment<'_>) -> Result<(), Memory>
    ensures { OnOk result (HasBegun (Some (with_segment None segment.now)) begun.new) }
{
    let mut set = BegunSet {
        start: segment.start(),
        reader: SetReader::new(alloc),
    };
    let taken = set.take(segment);
    *begun = Some(set);
    taken
}

/// The segment that ends the set.
#[inline(never)]
fn end_set(
    alloc: Global,
    begun: &mut Option<BegunSet>,
    segment: &Segment<'_>,
) -> Result<Brought, Memory>
    ensures { IfOk result (λ brought. (set : Option SetAt) → HasBegun set begun.old → IsBrought (with_segment set segment.now) brought × HasBegun None begun.new) }
{
    match take_segment(alloc, begun, segment) {
        Ok(()) => close(begun.take()),
        Err(fault) => Err(fault),
    }
}

/// What was read of the set.
fn close(begun: Option<BegunSet>) -> Result<Brought, Memory>
    ensures { IfOk result (λ brought. (set : SetAt) → HasBegun (Some set) begun → IsBrought set brought) }
{
    match begun {
        Some(set) => set.finish(),
        None => Ok(Brought::Nothing),
    }
}

impl BegunSet {
    /// Takes one more segment.
    #[inline(always)]
    fn take(&mut self, segment: &Segment<'_>) -> Result<(), Memory>
        ensures start { self.new.start ≡ self.old.start }
        ensures taken { (text : List ℕ) → HasTaken text self.old.reader → HasTaken (text ++ segment.now.bytes) self.new.reader }
    {
        match self.reader.take(segment) {
            Err(SetFault::Memory) => Err(Memory),
            _ => Ok(()),
        }
    }

    /// What was read of the segments taken.
    fn finish(self) -> Result<Brought, Memory>
        ensures { IfOk result (λ brought. (set : SetAt) → HasBegun (Some set) (Some self) → IsBrought set brought) }
    {
        let BegunSet { start, reader } = self;
        match reader.finish() {
            Ok(set) => Ok(Brought::Set(summary_of(set))),
            Err(SetFault::Refused { place, reason }) => {
                // No memory holds a text that would end past the last place.
                let Some(place) = start.checked_add(place) else {
                    return Err(Memory);
                };
                Ok(Brought::Refused(Refusal {
                    place,
                    reason: Reason::Set(reason),
                }))
            }
            Err(SetFault::Memory) => Err(Memory),
        }
    }
}
