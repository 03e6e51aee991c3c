//! `check text`: the verdict on a transmission.

ghost use Rattle.std.specs.Prelude.{◌≡◌, ◌+◌, ◌<◌, ◌≤◌, ◌^◌, ◌++◌, ℕ, List, [], None, Some, Option, drop, length, IfOk, MatchOption, OnOk};
ghost use Rattle.segments.specs.Streaming.{reached};
ghost use Rattle.dxs_envelope.specs.TextParts.{Parts};
ghost use Rattle.dxs_envelope.specs.TextPieces.{text_left, told_then};
ghost use Rattle.dxs_envelope.specs.Views.{SetAt, Told};
ghost use Rattle.dex_cli.specs.Summaries.{Ends, refusal_of as told_refusal};
ghost use Rattle.dex_cli.specs.TextSteps.{GoesOn, HasChecked, IsKept, StandsAt, reached_by, told_as};
ghost use Rattle.dex_cli.specs.Verdicts.{ChecksText};
ghost use Rattle.dex_cli.specs.declared.job.TheConstants.{INPUT_BYTES};
ghost use Rattle.dex_cli.specs.declared.text_summary.TextEnding.TheVariants as endings;
ghost use Rattle.dex_cli.specs.declared.words.CheckKind.TheVariants as checks;

use crate::begun_set::{BegunSet, Brought, take_part};
use crate::checking::Checking;
use crate::refusal::{Reason, Refusal};
use crate::summary::SetSummary;
use crate::text_summary::{TextEnding, TextSummary};
use crate::verdict::Verdict;
use dsd_station::Taker;
use dsd_values::Memory;
use dxs_envelope::{EnvelopeFault, TextStream, parts_tell_the_sets};
use std::alloc::{AllocError, Global};

/// A transmission so far: what is printed of its sets, up to the first refusal.
#[derive(Drop)]
pub struct TextChecking {
    alloc: Global,
    text: TextStream,
    begun: Option<BegunSet>,
    summaries: Vec<SetSummary>,
    ending: Option<Refusal>,
}

impl TextChecking {
    /// Nothing was taken.
    pub fn new(alloc: Global) -> TextChecking
        ensures begun { HasChecked [] result }
        ensures reach { reached_by result.ending result.text ≡ 0 }
    {
        // What is told of a text part by part is what is told of it set by set.
        parts_tell_the_sets();
        TextChecking {
            alloc,
            text: TextStream::new(),
            begun: None,
            summaries: Vec::new(alloc),
            ending: None,
        }
    }

    /// Takes the bytes up to the end of a segment, or all of them behind a refusal.
    fn take_next(&mut self, rest: &[u8]) -> Result<usize, Memory>
        requires { reached_by self.old.ending self.old.text + length rest.now < 2 ^ 64 }
        ensures inside { IfOk result (λ size. size ≤ length rest.now) }
        ensures some { IfOk result (λ size. 0 < length rest.now → 0 < size) }
        ensures reach { IfOk result (λ size. reached_by self.new.ending self.new.text ≤ reached_by self.old.ending self.old.text + size) }
        ensures goes { IfOk result (λ size. (all : List ℕ → Told) → StandsAt all (λ more. text_left self.old.text (rest.now ++ more)) self.old
            → StandsAt all (λ more. text_left self.new.text (drop size rest.now ++ more)) self.new) }
    {
        if self.ending.is_some() {
            return Ok(rest.len());
        }
        self.take_one(rest)
    }

    /// Takes the bytes up to the end of a segment, and the part that they end.
    fn take_one(&mut self, rest: &[u8]) -> Result<usize, Memory>
        requires placed { reached self.old.text.segments + length rest.now < 2 ^ 64 }
        requires open { self.old.ending ≡ None }
        ensures inside { IfOk result (λ size. size ≤ length rest.now) }
        ensures some { IfOk result (λ size. 0 < length rest.now → 0 < size) }
        ensures reach { IfOk result (λ size. reached_by self.new.ending self.new.text ≤ reached self.old.text.segments + size) }
        ensures goes { IfOk result (λ size. (all : List ℕ → Told) → StandsAt all (λ more. text_left self.old.text (rest.now ++ more)) self.old
            → StandsAt all (λ more. text_left self.new.text (drop size rest.now ++ more)) self.new) }
    {
        match self.text.take(rest) {
            Ok(size) => match self.take_told() {
                Ok(()) => Ok(size),
                Err(fault) => Err(fault),
            },
            Err(fault) => {
                self.ending = Some(refusal_of(fault));
                Ok(rest.len())
            }
        }
    }

    /// Takes the part that the last byte ended, where it ended one.
    fn take_told(&mut self) -> Result<(), Memory>
        requires open { self.old.ending ≡ None }
        ensures text { OnOk result (self.new.text ≡ self.old.text) }
        ensures goes { OnOk result ((all : List ℕ → Told) (left : List ℕ → Parts) → GoesOn all (λ more. told_then self.old.text.told (left more)) self.old
            → StandsAt all left self.new) }
    {
        let brought = match self.text.part() {
            Some(part) => take_part(self.alloc, &mut self.begun, part)?,
            None => return Ok(()),
        };
        self.keep(brought)
    }

    /// Keeps what a part brings.
    fn keep(&mut self, brought: Brought) -> Result<(), Memory>
        requires open { self.old.ending ≡ None }
        ensures text { self.new.text ≡ self.old.text }
        ensures begun { self.new.begun ≡ self.old.begun }
        ensures kept { OnOk result (IsKept brought self.old self.new) }
    {
        match brought {
            Brought::Nothing => {}
            Brought::Set(summary) => self.summaries.push(summary)?,
            Brought::Refused(refusal) => self.ending = Some(refusal),
        }
        Ok(())
    }
}

impl Taker for TextChecking {
    ghost holds = { λ checking input. HasChecked input checking };

    ghost reach = { λ checking. reached_by checking.ending checking.text };

    fn take(&mut self, piece: &[u8]) -> Result<(), Memory>
        requires { reached_by self.old.ending self.old.text + length piece.now < 2 ^ 64 }
        ensures holds { OnOk result ((before : List ℕ) → HasChecked before self.old → HasChecked (before ++ piece.now) self.new) }
        ensures reach { OnOk result (reached_by self.new.ending self.new.text ≤ reached_by self.old.ending self.old.text + length piece.now) }
    {
        let mut rest = piece;
        while !rest.is_empty() {
            let size = self.take_next(rest)?;
            rest = behind(rest, size);
        }
        Ok(())
    }
}

impl Checking for TextChecking {
    ghost kind = { checks.Text };

    fn finish(self) -> Result<Verdict, AllocError>
        ensures { (input : List ℕ) → HasChecked input self → length input ≤ INPUT_BYTES → IfOk result (ChecksText input) }
    {
        let TextChecking {
            alloc: _,
            text,
            begun: _,
            summaries,
            ending,
        } = self;
        let ending = end_by(ending, &text);
        Ok(Verdict::Text(TextSummary {
            sets: summaries,
            ending,
        }))
    }
}

/// How a text ends that was refused so or not.
fn end_by(ending: Option<Refusal>, text: &TextStream) -> TextEnding
    ensures { MatchOption ending ((set : Option SetAt) → Ends (told_as set (text_left text.now [])).sets (told_as set (text_left text.now [])).fault result) (λ refusal. result ≡ endings.Refused refusal) }
{
    match ending {
        Some(refusal) => TextEnding::Refused(refusal),
        None => ending_of(text),
    }
}

/// How a text ends where no more bytes come.
fn ending_of(text: &TextStream) -> TextEnding
    ensures { (set : Option SetAt) → Ends (told_as set (text_left text.now [])).sets (told_as set (text_left text.now [])).fault result }
{
    match text.end() {
        Ok(()) => TextEnding::Whole,
        Err(fault) => TextEnding::Refused(refusal_of(fault)),
    }
}

fn refusal_of(fault: EnvelopeFault) -> Refusal
    ensures { result ≡ told_refusal fault }
{
    Refusal {
        place: fault.place,
        reason: Reason::Envelope(fault.reason),
    }
}

/// The bytes behind so many.
fn behind(bytes: &[u8], count: usize) -> &[u8]
    requires { count ≤ length bytes.now }
    ensures { result.now ≡ drop count bytes.now }
{
    &bytes[count..]
}
