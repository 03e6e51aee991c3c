//! Segments, written one after another.

ghost use Rattle.std.specs.Prelude.{◌≡◌, ◌≤◌, [], ◌∷◌, ◌++◌, None, IsSome, IsTrue, OnErr, OnOk, length, take};
ghost use Rattle.dsd_values.specs.Reading.{IsElementText};
ghost use Rattle.segments.specs.SegmentSpelling.{is_id};
ghost use Rattle.segments.specs.SegmentWriting.{Gains, IsWrittenText, Judges, begun_with, ended as with_line, given, line_of, parts_of_begun};

use crate::segment::SEGMENT_ELEMENTS;
use crate::segment_write_fault::{SEGMENT_WRITTEN, SegmentWriteFault};
use dsd_values::{Memory, SetText};
use std::alloc::Global;
use std::marker::Model;

/// The greatest control number that is written.
pub const MOST_CONTROL_NUMBER: u32 = 999_999_999;

/// Writes segments: an id, the elements each after a `*`, without the empty ones at their end, and CR LF. After a refusal it may
/// only be dropped.
#[derive(Drop)]
pub struct SegmentWriter {
    text: Vec<u8>,
    /// Where the segments that are ended end. What stands behind it is the one that is begun.
    ended: usize,
    /// Where the last part of the segment that is begun ends that is not empty.
    filled: usize,
}

impl Model for SegmentWriter {
    ghost use Rattle.segments.specs.SegmentWriting.{KeepsWriter, Written, written_in};

    ghost Value = { Written };

    ghost view = { λ w. written_in w.text.items w.ended };

    ghost invariant = { λ w. KeepsWriter w.text.items w.ended w.filled };
}

impl SegmentWriter {
    /// A writer of no segments.
    pub fn new(alloc: Global) -> SegmentWriter
        ensures { result ≡ record { text = []; begun = None } }
    {
        SegmentWriter {
            text: Vec::new(alloc),
            ended: 0,
            filled: 0,
        }
    }

    /// Begins a segment.
    pub fn begin(&mut self, id: &[u8]) -> Result<(), Memory>
        requires ended { self.old.begun ≡ None }
        requires id { IsTrue (is_id id.now) }
        ensures { OnOk result (self.new ≡ begun_with id.now self.old) }
    {
        extend(&mut self.text, id)?;
        self.filled = self.text.len();
        Ok(())
    }

    /// Gives the segment that is begun one more element.
    pub fn element(&mut self, text: &[u8]) -> Result<(), Memory>
        requires begun { IsSome self.old.begun }
        requires characters { IsElementText text.now }
        requires few { length (parts_of_begun self.old.begun) ≤ SEGMENT_ELEMENTS }
        ensures { OnOk result (self.new ≡ given text.now self.old) }
    {
        // Many elements are empty, and what is copied costs a call.
        if text.is_empty() {
            push_star(&mut self.text)?;
            return Ok(());
        }
        push_element(&mut self.text, text)?;
        self.filled = self.text.len();
        Ok(())
    }

    /// Ends the segment that is begun.
    pub fn end(&mut self) -> Result<(), SegmentWriteFault>
        requires { IsSome self.old.begun }
        ensures judged { Judges (line_of (parts_of_begun self.old.begun)) result }
        ensures ok { OnOk result (self.new ≡ with_line self.old) }

        // The segments of the text are those before, and this one.
        ensures gains { OnOk result (Gains (parts_of_begun self.old.begun) self.old.text self.new.text) }
    {
        let length = self.filled - self.ended + 2;
        if length > SEGMENT_WRITTEN {
            return Err(SegmentWriteFault::LongSegment(length));
        }
        end_line(&mut self.text, self.filled)?;
        self.ended = self.text.len();
        self.filled = self.ended;
        Ok(())
    }

    /// What is written so far.
    pub fn written(&self) -> &[u8]
        requires { self.now.begun ≡ None }
        ensures value { result.now ≡ self.now.text }
        ensures spelled { IsWrittenText result.now }
    {
        self.text.as_slice()
    }

    /// What is written.
    pub fn finish(self) -> SetText
        requires { self.begun ≡ None }
        ensures value { result ≡ self.text }
        ensures spelled { IsWrittenText result }
    {
        SetText::from_bytes(self.text)
    }
}

fn extend(text: &mut Vec<u8>, more: &[u8]) -> Result<(), Memory>
    ensures ok { OnOk result (text.new.items ≡ text.old.items ++ more.now) }
    ensures err { OnErr result (text.new.items ≡ text.old.items) }
{
    text.extend_from_slice(more)?;
    Ok(())
}

/// Appends a `*`.
fn push_star(text: &mut Vec<u8>) -> Result<(), Memory>
    ensures ok { OnOk result (text.new.items ≡ text.old.items ++ 42 ∷ []) }
    ensures err { OnErr result (text.new.items ≡ text.old.items) }
{
    text.push(b'*')?;
    Ok(())
}

/// Appends a `*` and the element, both or none.
fn push_element(text: &mut Vec<u8>, element: &[u8]) -> Result<(), Memory>
    ensures ok { OnOk result (text.new.items ≡ text.old.items ++ 42 ∷ element.now) }
    ensures err { OnErr result (text.new.items ≡ text.old.items) }
{
    text.reserve(element.len() + 1)?;
    text.push_reserved(b'*');
    text.extend_from_slice(element)?;
    Ok(())
}

/// Puts CR LF in the place of what stands from here on.
fn end_line(text: &mut Vec<u8>, from: usize) -> Result<(), Memory>
    requires { from ≤ length text.old.items }
    ensures ok { OnOk result (text.new.items ≡ take from text.old.items ++ 13 ∷ 10 ∷ []) }
    ensures err { OnErr result (text.new.items ≡ text.old.items) }
{
    text.reserve(2)?;
    text.truncate(from);
    text.push_reserved(b'\r');
    text.push_reserved(b'\n');
    Ok(())
}
