//! A set that comes in pieces.

ghost use Rattle.std.specs.Prelude.{◌≡◌, ◌+◌, ◌<◌, ◌≤◌, ◌^◌, ◌++◌, ℕ, List, [], length, IfOk, None, OnOk, Some};
ghost use Rattle.dsd_values.specs.declared.limits.TheConstants.{SET_BYTES};
ghost use Rattle.transaction_set.specs.Refusal.{Answers, IsWithin};
ghost use Rattle.dsd_record.specs.ReadSets.{set_in};
ghost use Rattle.dsd_record.specs.SetTexts.{IsSet, set_refusal};
ghost use Rattle.dsd_record.specs.declared.set_view.SetView.{SetView as Set};
ghost use Rattle.set_stream.specs.StreamedSets.{IsStreamOf, Reads, comes_to};

use crate::feeding::feed;
use dsd_record::{SetReader, SetView};
use dsd_values::Memory;
use segments::SegmentStream;
use std::alloc::Global;
use std::marker::Model;
use transaction_set::SetFault;

/// Reads a set whose text comes in pieces. It holds one segment and what the set says, and keeps nothing more behind the
/// first refusal.
#[derive(Drop)]
pub struct SetStream {
    segments: SegmentStream,
    set: SetReader,
    // Why the text is no set, or that there was no memory.
    fault: Option<SetFault>,
}

impl Model for SetStream {
    ghost use Rattle.set_stream.specs.StreamedSets.{SetSoFar};

    ghost Value = { SetSoFar };

    ghost view = { λ s. record { segments = s.segments; set = s.set; fault = s.fault } };
}

impl SetStream {
    /// A stream that nothing was taken by, and that takes no memory yet.
    pub fn new(alloc: Global) -> SetStream
        ensures begun { IsStreamOf [] result }
        ensures reach { comes_to result ≡ 0 }
    {
        SetStream {
            segments: SegmentStream::new(),
            set: SetReader::new(alloc),
            fault: None,
        }
    }

    /// Takes the bytes that come next.
    pub fn take(&mut self, piece: &[u8]) -> Result<(), Memory>
        requires { comes_to self.old + length piece.now < 2 ^ 64 }
        ensures taken { OnOk result ((text : List ℕ) → IsStreamOf text self.old → IsStreamOf (text ++ piece.now) self.new) }
        ensures reach { OnOk result (comes_to self.new ≤ comes_to self.old + length piece.now) }
    {
        if self.fault.is_some() {
            return Ok(());
        }
        match feed(&mut self.segments, &mut self.set, piece) {
            Ok(()) => Ok(()),
            Err(fault) => self.give_up(fault),
        }
    }

    /// Keeps the first refusal. Want of memory is told at once.
    fn give_up(&mut self, fault: SetFault) -> Result<(), Memory>
        ensures { self.new.fault ≡ Some fault }
    {
        let answer = match &fault {
            SetFault::Refused { .. } => Ok(()),
            SetFault::Memory => Err(Memory),
        };
        self.fault = Some(fault);
        answer
    }

    /// The set of the text that was taken.
    pub fn finish(self) -> Result<SetView, SetFault>
        // What is read is spelled so.
        ensures found { (text : List ℕ) → IsStreamOf text self → IfOk result (λ set. IsSet set text) }
        ensures read { (text : List ℕ) → IsStreamOf text self → IfOk result (λ set. set_in text ≡ Some set) }
        ensures sized { (text : List ℕ) → IsStreamOf text self → OnOk result ((0 < length text) × (length text ≤ SET_BYTES)) }

        // What is spelled so is read, unless memory runs out.
        ensures only { (text : List ℕ) → IsStreamOf text self → (set : Set) → IsSet set text → Answers result None (λ x. x ≡ set) }

        // It is refused as the set that it begins as.
        ensures exact { (text : List ℕ) → IsStreamOf text self → Answers result (set_refusal text) (λ _. Unit {0}) }
        ensures within { (text : List ℕ) → IsStreamOf text self → IsWithin result (length text) }
    {
        let SetStream {
            segments,
            set,
            fault,
        } = self;
        match fault {
            Some(fault) => Err(fault),
            None => finish(&segments, set),
        }
    }
}

/// The set of the text whose segments these are.
fn finish(segments: &SegmentStream, set: SetReader) -> Result<SetView, SetFault>
    ensures found { (text : List ℕ) → Reads text segments.now set [] → IfOk result (λ read. IsSet read text) }
    ensures read { (text : List ℕ) → Reads text segments.now set [] → IfOk result (λ read. set_in text ≡ Some read) }
    ensures sized { (text : List ℕ) → Reads text segments.now set [] → OnOk result ((0 < length text) × (length text ≤ SET_BYTES)) }
    ensures only { (text : List ℕ) → Reads text segments.now set [] → (wanted : Set) → IsSet wanted text → Answers result None (λ x. x ≡ wanted) }
    ensures exact { (text : List ℕ) → Reads text segments.now set [] → Answers result (set_refusal text) (λ _. Unit {0}) }
    ensures within { (text : List ℕ) → Reads text segments.now set [] → IsWithin result (length text) }
{
    match segments.end() {
        Ok(()) => set.finish(),
        Err(fault) => Err(set.broken(fault)),
    }
}
