//! Writing a transmission.

ghost use Rattle.std.specs.Prelude.{◌≡◌, ◌≤◌, ◌++◌, ◌<◌, All, IfOk, Ok, IsSome, length};
ghost use Rattle.std.specs.List.{concat};
ghost use Rattle.dsd_values.specs.Answers.{UnlessMemory};
ghost use Rattle.dsd_values.specs.Reading.{IsElementText};
ghost use Rattle.segments.specs.SegmentWriting.{line_of, parts_of_begun};
ghost use Rattle.segments.specs.SetUnits.{IsSetText};
ghost use Rattle.dxs_envelope.specs.Sending.{IsCommId, Sent, header_row, text_of_sets, trailer_row, unless_long};
ghost use Rattle.segments.specs.declared.segment_write_fault.TheConstants.{SEGMENT_WRITTEN};
ghost use Rattle.segments.specs.declared.segment_writer.TheConstants.{MOST_CONTROL_NUMBER};

use super::outgoing::{EnvelopeWriteFault, Outgoing, TRANSMISSION_BYTES};
use dsd_values::{CommId, Memory, SetText, write_plain_number};
use segments::{SegmentWriteFault, SegmentWriter};
use std::alloc::Global;

/// Writes the transmission of these sets. Each set is a text from its ST through its only SE, in CR LF.
pub fn write_transmission(
    alloc: Global,
    sender: CommId,
    receiver: CommId,
    sets: &[SetText],
    control: u32,
) -> Result<Outgoing, EnvelopeWriteFault>
    requires low { 1 ≤ control }
    requires high { control ≤ MOST_CONTROL_NUMBER }
    requires each { All IsSetText sets.now }

    // It is refused where it is too long, and else it is written so.
    ensures exact { UnlessMemory EnvelopeWriteFault.Memory result (unless_long (text_of_sets sender receiver control sets.now)) }
    ensures sent { IfOk result (λ text. Sent sets.now sender receiver control text) }
{
    let text = written(alloc, sender, receiver, sets, control)?;
    let length = text.len();
    if length > TRANSMISSION_BYTES {
        return Err(EnvelopeWriteFault::LongText(length));
    }
    Ok(Outgoing::new(text))
}

/// The text, however long it is.
fn written(
    alloc: Global,
    sender: CommId,
    receiver: CommId,
    sets: &[SetText],
    control: u32,
) -> Result<Vec<u8>, Memory>
    requires { control ≤ MOST_CONTROL_NUMBER }
    ensures text { IfOk result (λ text. text.items ≡ text_of_sets sender receiver control sets.now) }
    ensures ids { IfOk result (λ _. IsCommId sender × IsCommId receiver) }
{
    let header = header(alloc, sender, receiver, control)?;
    let trailer = trailer(alloc, control, sets.len() as u64)?;
    joined(alloc, header.as_slice(), sets, trailer.as_slice())
}

/// The header, the sets and the trailer, one after another.
fn joined(alloc: Global, header: &[u8], sets: &[SetText], trailer: &[u8]) -> Result<Vec<u8>, Memory>
    ensures { IfOk result (λ text. text.items ≡ header.now ++ concat sets.now ++ trailer.now) }
{
    let mut text = Vec::from_slice(alloc, header)?;
    for set in sets {
        text.extend_from_slice(set.as_slice())?;
    }
    text.extend_from_slice(trailer)?;
    Ok(text)
}

fn header(alloc: Global, sender: CommId, receiver: CommId, control: u32) -> Result<SetText, Memory>
    requires { control ≤ MOST_CONTROL_NUMBER }
    ensures text { IfOk result (λ text. text ≡ line_of (header_row sender receiver control)) }
    ensures ids { IfOk result (λ _. IsCommId sender × IsCommId receiver) }
{
    let mut segments = SegmentWriter::new(alloc);
    segments.begin(b"DXS")?;
    segments.element(characters(sender).as_slice())?;
    segments.element(b"DX")?;
    segments.element(b"004010UCS")?;
    segments.element(write_plain_number(u64::from(control)).as_slice())?;
    segments.element(characters(receiver).as_slice())?;
    ended(segments)
}

fn characters(id: CommId) -> [u8; 10]
    ensures value { result ≡ id }
    ensures element { IsElementText result }
    ensures known { IsCommId id }
{
    id.get()
}

fn trailer(alloc: Global, control: u32, sets: u64) -> Result<SetText, Memory>
    requires { control ≤ MOST_CONTROL_NUMBER }
    ensures { IfOk result (λ text. text ≡ line_of (trailer_row control sets)) }
{
    let mut segments = SegmentWriter::new(alloc);
    segments.begin(b"DXE")?;
    segments.element(write_plain_number(u64::from(control)).as_slice())?;
    segments.element(write_plain_number(sets).as_slice())?;
    ended(segments)
}

/// The one segment that is begun.
fn ended(segments: SegmentWriter) -> Result<SetText, Memory>
    requires begun { IsSome segments.begun }
    requires short { length (line_of (parts_of_begun segments.begun)) ≤ SEGMENT_WRITTEN }
    ensures { IfOk result (λ text. text ≡ segments.text ++ line_of (parts_of_begun segments.begun)) }
{
    let mut segments = segments;
    match segments.end() {
        Ok(()) => Ok(segments.finish()),
        Err(SegmentWriteFault::Memory) => Err(Memory),
        Err(SegmentWriteFault::LongSegment(_)) => unreachable!(),
    }
}
