//! A line for each step.

use dex_handshake::{SessionEnd, Step};
use dex_line::Frame;
use std::{io, str};

/// Prints what is said, the text that is handed on, and how the session has ended.
pub fn print_step(rt: &impl Print, step: &Step) -> io::Result<()> {
    match &step.say {
        Some(frame) => print_frame(rt, frame)?,
        None => print!(rt; "-")?,
    }
    if let Some(text) = step.next.turn() {
        print!(rt; " TURN {:?}", shown(text))?;
    }
    if let Some(end) = step.next.ended() {
        print_end(rt, end)?;
    }
    println!(rt; "")
}

fn print_frame(rt: &impl Print, frame: &Frame) -> io::Result<()> {
    match frame {
        Frame::Enq => print!(rt; "ENQ"),
        Frame::Ack0 => print!(rt; "ACK0"),
        Frame::Ack1 => print!(rt; "ACK1"),
        Frame::Nak => print!(rt; "NAK"),
        Frame::Eot => print!(rt; "EOT"),
        Frame::Header(text) => print!(rt; "HEADER {:?}", shown(text)),
        Frame::Block { last: true, text } => print!(rt; "LAST {:?}", shown(text)),
        Frame::Block { last: false, text } => print!(rt; "BLOCK {:?}", shown(text)),
        Frame::Damaged | Frame::Bad => print!(rt; "?"),
    }
}

fn print_end(rt: &impl Print, end: SessionEnd) -> io::Result<()> {
    match end {
        SessionEnd::Complete => print!(rt; " COMPLETE"),
        SessionEnd::Silent => print!(rt; " SILENT"),
        SessionEnd::TriesSpent(frame) => print!(rt; " TRIES {frame}"),
        SessionEnd::PartnerRefused(code) => print!(rt; " REFUSED {code}"),
        SessionEnd::WrongPartner(id) => print!(rt; " WRONG {:?}", shown(&id.get())),
        SessionEnd::TextLimit => print!(rt; " LIMIT"),
        SessionEnd::Unplugged => print!(rt; " UNPLUGGED"),
    }
}

/// The texts of a line are characters of one byte.
fn shown(text: &[u8]) -> &str {
    str::from_utf8(text).unwrap_or("?")
}
