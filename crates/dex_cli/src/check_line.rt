//! `check line`: the frames of captured bytes.

ghost use Rattle.std.specs.Prelude.{◌≡◌, ◌++◌, map, codes, not, IfOk, OnOk};
ghost use Rattle.dex_line.specs.Captured.{frames_in, is_refused};
ghost use Rattle.dex_line.specs.FrameShapes.{captured_seen};
ghost use Rattle.dex_cli.specs.Verdicts.{has_refused, status_of_line};
ghost use Rattle.dex_cli.specs.Texts.{shown, frame_line, frames_text, refused_line};
ghost use Rattle.end_report.specs.Lines.{both, line};

use crate::refusal::{Reason, Refusal, put_refusal};
use crate::status::{DONE, INPUT_REFUSED};
use dex_line::{Captured, Frames};
use end_report::{put, put_count};
use std::alloc::{AllocError, Global};

/// Prints the frames of captured bytes, and answers the status.
pub fn put_captured(alloc: Global, out: &mut Vec<u8>, captured: &[u8]) -> Result<u8, AllocError>
    ensures text { OnOk result (out.new.items ≡ out.old.items ++ frames_text (frames_in captured.now)) }
    ensures status { IfOk result (λ status. status ≡ status_of_line captured.now) }
{
    if put_frames(alloc, out, captured)? {
        Ok(DONE)
    } else {
        Ok(INPUT_REFUSED)
    }
}

/// Prints a line for each frame, and tells whether all of them are right.
fn put_frames(alloc: Global, out: &mut Vec<u8>, captured: &[u8]) -> Result<bool, AllocError>
    ensures text { OnOk result (out.new.items ≡ out.old.items ++ frames_text (frames_in captured.now)) }
    ensures right { IfOk result (λ right. right ≡ not (has_refused captured.now)) }
{
    let mut frames = Frames::new(captured);
    while let Some((place, frame)) = frames.next() {
        put_frame(alloc, out, place, frame)?;
        if is_refused_frame(frame) {
            return Ok(false);
        }
    }
    put(out, "OK\n")?;
    Ok(true)
}

fn is_refused_frame(frame: Captured<'_>) -> bool
    ensures { result ≡ is_refused (captured_seen frame.entry) }
{
    matches!(frame, Captured::Damaged | Captured::Bad)
}

fn put_frame(
    alloc: Global,
    out: &mut Vec<u8>,
    place: usize,
    frame: Captured<'_>,
) -> Result<(), AllocError>
    ensures { OnOk result (out.new.items ≡ out.old.items ++ frame_line place (captured_seen frame.entry)) }
{
    match frame {
        Captured::Enq => put(out, "ENQ\n"),
        Captured::Ack0 => put(out, "ACK0\n"),
        Captured::Ack1 => put(out, "ACK1\n"),
        Captured::Nak => put(out, "NAK\n"),
        Captured::Eot => put(out, "EOT\n"),
        Captured::Header(text) => put_header(out, text),
        Captured::Block { last: false, text } => put_count(alloc, out, "BLOCK", text.len() as u64),
        Captured::Block { last: true, text } => put_count(alloc, out, "LAST", text.len() as u64),
        Captured::Damaged => put_refused(alloc, out, place, Reason::Damaged),
        Captured::Bad => put_refused(alloc, out, place, Reason::Bad),
    }
}

fn put_refused(
    alloc: Global,
    out: &mut Vec<u8>,
    place: usize,
    reason: Reason,
) -> Result<(), AllocError>
    ensures { OnOk result (out.new.items ≡ out.old.items ++ refused_line (record { place = place; reason = reason })) }
{
    put_refusal(alloc, out, &Refusal { place, reason })
}

fn put_header(out: &mut Vec<u8>, text: &[u8]) -> Result<(), AllocError>
    ensures { OnOk result (out.new.items ≡ out.old.items ++ line (both (codes "HEADER") (map shown text.now))) }
{
    put(out, "HEADER ")?;
    put_shown(out, text)?;
    put(out, "\n")
}

/// CR and LF are printed as `.`.
fn put_shown(out: &mut Vec<u8>, text: &[u8]) -> Result<(), AllocError>
    ensures { OnOk result (out.new.items ≡ out.old.items ++ map shown text.now) }
{
    for &byte in text {
        match byte {
            b'\r' | b'\n' => out.push(b'.')?,
            _ => out.push(byte)?,
        }
    }
    Ok(())
}
