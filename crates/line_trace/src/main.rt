//! The program `line_trace`: what one end of a line says at each of many events, so that its states can be held to a table
//! that others wrote.
//!
//! Its words are the role, `S` or `R`, events, a letter each, a delivery and an answer: the supplier's turns have the
//! delivery, and the receiver's the answer. A line is printed for the start and for each event: what is said, the text that
//! was handed on, and how the session has ended.
#![tactic(auto)]

ghost use Rattle.std.specs.Prelude.{IfSome};
ghost use Rattle.segments.specs.SetUnits.{IsSetText};

mod printing;

use adjustment_895::{read_895, write_895};
use base_record_894::{read_894, write_894};
use dex_handshake::{Session, Step};
use dex_line::Frame;
use dsd_values::{CommId, Role, SetText};
use dxs_envelope::{Outgoing, write_transmission};
use printing::print_step;
use std::alloc::Global;
use std::{env, io};

fn supplier() -> CommId {
    CommId::new([b'H', b'H', b'0', b'0', b'0', b'0', b'0', b'0', b'0', b'1'])
}

fn receiver() -> CommId {
    CommId::new([b'R', b'R', b'0', b'0', b'0', b'0', b'0', b'0', b'0', b'1'])
}

/// The set of this text as it is written, or none where it is no set.
fn written(alloc: Global, text: &[u8]) -> Option<SetText>
    ensures { IfSome result (λ set. IsSetText set) }
{
    if let Ok((base, _seal)) = read_894(alloc, text) {
        return match write_894(alloc, &base, 1) {
            Ok(set) => Some(set),
            Err(_) => None,
        };
    }
    let Ok((answer, _seal)) = read_895(alloc, text) else {
        return None;
    };
    match write_895(alloc, &answer, 1) {
        Ok(set) => Some(set),
        Err(_) => None,
    }
}

/// The transmission of a set by the end of a role, or none where the text is no set.
fn carried(alloc: Global, role: Role, text: &[u8]) -> Option<Outgoing> {
    let sets = [written(alloc, text)?];
    match role {
        Role::Supplier => write_transmission(alloc, supplier(), receiver(), &sets, 1).ok(),
        Role::Receiver => write_transmission(alloc, receiver(), supplier(), &sets, 1).ok(),
    }
}

/// A session that begins.
fn start(alloc: Global, role: Role) -> io::Result<Step> {
    let started = match role {
        Role::Supplier => Session::start(alloc, role, supplier(), receiver()),
        Role::Receiver => Session::start(alloc, role, receiver(), supplier()),
    };
    started.map_err(|_| io::Error::from(io::ErrorKind::OutOfMemory))
}

/// A block with as much of a text as it may have.
fn block(last: bool, text: &[u8]) -> Frame {
    Frame::block(last, text.get(..245).unwrap_or(text))
}

/// The frame that a letter stands for.
fn frame_of(event: u8, text: &[u8]) -> Option<Frame> {
    match event {
        b'e' => Some(Frame::Enq),
        b'0' => Some(Frame::Ack0),
        b'1' => Some(Frame::Ack1),
        b'n' => Some(Frame::Nak),
        b't' => Some(Frame::Eot),
        b'd' => Some(Frame::Damaged),
        b'x' => Some(Frame::Bad),
        b'h' => Some(Frame::header(b"HH00000001SR01L01")),
        b'w' => Some(Frame::header(b"HH00000002SR01L01")),
        b'm' => Some(Frame::header(b"HH0000001SR01L01")),
        b'r' => Some(Frame::header(b"00RR00000001R01L01")),
        b'v' => Some(Frame::header(b"00RR00000002R01L01")),
        b'c' => Some(Frame::header(b"02RR00000001R01L01")),
        b'z' => Some(Frame::block(true, b"")),
        b'b' => Some(block(false, b"A")),
        b'l' => Some(block(true, b"B")),
        b'f' => Some(block(false, text)),
        b'a' => Some(block(true, text)),
        _ => None,
    }
}

/// An own turn, where one must be given.
fn give(session: Session, text: Option<Outgoing>) -> Step {
    match session {
        Session::TextsFinished(state) => state.give(text),
        next => Step { next, say: None },
    }
}

/// What a session does at an event. A letter of no event changes nothing.
fn hear(session: Session, event: u8, text: &[u8]) -> Step {
    if let Some(frame) = frame_of(event, text) {
        return session.heard(frame);
    }
    match event {
        b'q' => session.quiet(),
        b'u' => Step {
            next: session.unplugged(),
            say: None,
        },
        b'G' => give(session, None),
        _ => Step {
            next: session,
            say: None,
        },
    }
}

/// Prints a step.
fn told(rt: &impl Print, step: Step) -> io::Result<Session> {
    print_step(rt, &step)?;
    Ok(step.next)
}

/// What a session does at an event, where its own turn has one set, and the other end's blocks this text. The letter `s`
/// begins anew.
fn react(
    alloc: Global,
    role: Role,
    session: Session,
    event: u8,
    own: &str,
    heard: &[u8],
) -> io::Result<Step> {
    match event {
        b's' => start(alloc, role),
        b'g' => Ok(give(session, carried(alloc, role, own.as_bytes()))),
        event => Ok(hear(session, event, heard)),
    }
}

/// Plays the events, and prints each step.
fn play(
    rt: &impl Print,
    alloc: Global,
    role: Role,
    events: &str,
    own: &str,
    heard: &[u8],
) -> io::Result<()> {
    let mut session = told(rt, start(alloc, role)?)?;
    for event in events.as_bytes() {
        session = told(rt, react(alloc, role, session, *event, own, heard)?)?;
    }
    Ok(())
}

/// Plays the events at the end of a role, whose own turns have one set, and the other end's the other.
fn trace(
    rt: &impl Print,
    alloc: Global,
    role: Role,
    events: &str,
    own: &str,
    other: &str,
) -> io::Result<()> {
    let partner = match role {
        Role::Supplier => Role::Receiver,
        Role::Receiver => Role::Supplier,
    };
    match carried(alloc, partner, other.as_bytes()) {
        Some(heard) => play(rt, alloc, role, events, own, heard.as_slice()),
        None => Ok(()),
    }
}

fn main(rt: HostRuntime) -> io::Result<()> {
    let mut words = Vec::new(rt.alloc());
    for word in env::args(&rt)?.skip(1) {
        words.push(word)?;
    }
    let [role, events, delivery, answer] = words.as_slice() else {
        return Ok(());
    };
    match role.as_str() {
        "S" => trace(&rt, rt.alloc(), Role::Supplier, events, delivery, answer),
        "R" => trace(&rt, rt.alloc(), Role::Receiver, events, answer, delivery),
        _ => Ok(()),
    }
}
