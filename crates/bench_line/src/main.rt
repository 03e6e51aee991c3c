//! The program `bench_line`, which `bench/` measures: what the states of a session cost.
//!
//! `scan` finds the frames in captured bytes of turns, and `take` hands them to a receiver's session as well; `build` writes
//! transmissions of a set, and `send` has a supplier's session say their blocks as well. No job of `dex` does so yet.
#![tactic(auto)]

ghost use Rattle.std.specs.Prelude.{◌≡◌, All, IfOk};
ghost use Rattle.segments.specs.SetUnits.{IsSetText};

use base_record_894::{read_894, write_894};
use dex_handshake::Session;
use dex_line::{Frame, Scanner};
use dsd_station::{StdSource, read_up_to};
use dsd_values::{CommId, Memory, Role, SetText};
use dxs_envelope::{Outgoing, write_transmission};
use std::alloc::Global;
use std::{env, io};

/// The most bytes of an input.
const INPUT_BYTES: usize = 4_194_304;

/// How often a transmission goes out.
const TURNS: u32 = 16;

/// How many bytes of sets a transmission has, with room for what is before and behind them.
const SETS_BYTES: usize = 260_000;

/// The most blocks of a transmission.
const BLOCKS: u32 = 1_200;

fn supplier() -> CommId {
    CommId::new([b'H', b'H', b'0', b'0', b'0', b'0', b'0', b'0', b'0', b'1'])
}

fn receiver() -> CommId {
    CommId::new([b'R', b'R', b'0', b'0', b'0', b'0', b'0', b'0', b'0', b'1'])
}

// ---- taking

/// A receiver's session behind both headers.
fn receiving(alloc: Global) -> Result<Session, Memory> {
    let session = Session::start(alloc, Role::Receiver, receiver(), supplier())?.next;
    let session = session.heard(Frame::Enq).next;
    let session = session.heard(Frame::header(b"HH00000001SR01L01")).next;
    let session = session.heard(Frame::Eot).next;
    let session = session.heard(Frame::Ack0).next;
    Ok(session.heard(Frame::Ack1).next)
}

/// A frame is heard; an own turn is given no block.
fn hear(session: Session, frame: Frame) -> Session {
    match session.heard(frame).next {
        Session::TextsFinished(state) => state.give(None).next.heard(Frame::Ack0).next,
        session => session,
    }
}

/// Each frame of captured bytes is heard.
fn take(mut session: Session, bytes: &[u8]) -> Session {
    let mut scanner = Scanner::new();
    let mut rest = bytes;
    for _ in 0..bytes.len() {
        let (taken, frame) = scanner.hear(rest);
        let Some(frame) = frame else {
            return session;
        };
        session = hear(session, frame);
        rest = &rest[taken..];
    }
    session
}

/// How many of the frames in captured bytes end a turn.
fn scan(bytes: &[u8]) -> usize {
    let mut scanner = Scanner::new();
    let mut rest = bytes;
    let mut ends = 0usize;
    for _ in 0..bytes.len() {
        let (taken, frame) = scanner.hear(rest);
        let Some(frame) = frame else {
            return ends;
        };
        if let Frame::Eot = frame {
            ends = ends.saturating_add(1);
        }
        rest = &rest[taken..];
    }
    ends
}

// ---- sending

/// A set that is written again, so many times.
fn copies(alloc: Global, set: &SetText, count: usize) -> Result<Vec<SetText>, Memory>
    requires { IsSetText set.now }
    ensures { IfOk result (λ sets. All IsSetText sets.items) }
{
    let mut sets = Vec::new(alloc);
    for _ in 0..count {
        sets.push(set.try_copy(alloc)?)?;
    }
    Ok(sets)
}

/// The set of this text as it is written, as often as a transmission has room for it.
fn sets_of(alloc: Global, text: &[u8]) -> Result<Vec<SetText>, Memory>
    ensures { IfOk result (λ sets. All IsSetText sets.items) }
{
    let Ok((base, _seal)) = read_894(alloc, text) else {
        return Ok(Vec::new(alloc));
    };
    let Ok(set) = write_894(alloc, &base, 1) else {
        return Ok(Vec::new(alloc));
    };
    let size = set.as_slice().len();
    if size == 0 {
        return Ok(Vec::new(alloc));
    }
    copies(alloc, &set, SETS_BYTES / size)
}

/// A transmission of these sets.
fn transmission(alloc: Global, sets: &[SetText]) -> Option<Outgoing>
    requires { All IsSetText sets.now }
{
    write_transmission(alloc, supplier(), receiver(), sets, 1).ok()
}

/// A supplier's session behind both headers.
fn sending(alloc: Global) -> Result<Session, Memory> {
    let session = Session::start(alloc, Role::Supplier, supplier(), receiver())?.next;
    let session = session.heard(Frame::Ack0).next;
    let session = session.heard(Frame::Ack1).next;
    let session = session.heard(Frame::Enq).next;
    let session = session.heard(Frame::header(b"00RR00000001R01L01")).next;
    Ok(session.heard(Frame::Eot).next)
}

/// An own turn with this text: each reply is heard, and then an empty turn of the other end. Tells how much was said.
fn say(session: Session, text: Outgoing) -> (Session, u32) {
    let mut session = match session {
        Session::TextsFinished(state) => state.give(Some(text)).next.heard(Frame::Ack0).next,
        session => session,
    };
    let mut said = 0u32;
    for number in 1..=BLOCKS {
        let reply = if number % 2 == 1 {
            Frame::Ack1
        } else {
            Frame::Ack0
        };
        let step = session.heard(reply);
        said = said.saturating_add(u32::from(step.say.is_some()));
        session = step.next;
    }
    (session.heard(Frame::Enq).next.heard(Frame::Eot).next, said)
}

/// How much is said of as many transmissions of these sets as there are turns.
fn send(alloc: Global, mut session: Session, sets: &[SetText]) -> Option<u32>
    requires { All IsSetText sets.now }
{
    let mut all = 0u32;
    for _ in 0..TURNS {
        let (next, said) = say(session, transmission(alloc, sets)?);
        all = all.saturating_add(said);
        session = next;
    }
    Some(all)
}

/// How many bytes as many transmissions of these sets have as there are turns.
fn build(alloc: Global, sets: &[SetText]) -> Option<usize>
    requires { All IsSetText sets.now }
{
    let mut all = 0usize;
    for _ in 0..TURNS {
        all = all.saturating_add(transmission(alloc, sets)?.as_slice().len());
    }
    Some(all)
}

// ---- the jobs

/// What one job counts, or none where there is no such job.
fn count(alloc: Global, job: &str, input: &[u8]) -> Result<Option<usize>, Memory> {
    match job {
        "scan" => Ok(Some(scan(input))),
        "take" => Ok(Some(usize::from(take(receiving(alloc)?, input).ended().is_none()))),
        "build" => Ok(build(alloc, sets_of(alloc, input)?.as_slice())),
        "send" => {
            let sets = sets_of(alloc, input)?;
            let said = send(alloc, sending(alloc)?, sets.as_slice());
            Ok(said.map(|count| count as usize))
        }
        _ => Ok(None),
    }
}

fn main(rt: HostRuntime) -> io::Result<()> {
    let Some(job) = env::args(&rt)?.nth(1) else {
        return Ok(());
    };
    let mut source = StdSource::new(rt.stdin());
    let Ok(input) = read_up_to(rt.alloc(), &mut source, INPUT_BYTES) else {
        return Ok(());
    };
    match count(rt.alloc(), job.as_str(), input.as_slice()) {
        Ok(Some(count)) => println!(rt; "{count}"),
        Ok(None) | Err(_) => Ok(()),
    }
}
