ghost use Rattle.std.specs.Prelude.{◌≡◌, ◌≤◌, ◌<◌, ◌+◌, ◌-◌, min, length, take, drop, IfOk, OnErr, Ok, Err};
ghost use Rattle.dsd_station.specs.ByPlan.{outcome_by, due_by, unless_stopped as answer_unless_stopped};
ghost use Rattle.dsd_station.specs.Causes.{HasCause};
ghost use Rattle.dsd_station.specs.Effects.{Attaches, Reads, ReadsFront, Writes, Syncs, Listens, LeavesRest, Speaks, IsPiece, answer_of, heard_in, listened};
ghost use Rattle.dsd_station.specs.Logged.{told_by, Plays};
ghost use Rattle.dsd_station.specs.Planned.{heard_of};
ghost use Rattle.dsd_station.specs.Replayed.{state_of};
ghost use Rattle.dsd_station.specs.Told.{ReadMayStay};

use crate::Failed;
use crate::call::{Call, Outcome, Reception};
use crate::handed::Handed;
use crate::memory_station::MemoryStation;
use crate::station::{Heard, Station};
use std::alloc::{AllocError, Global};

impl Station for MemoryStation {
    ghost tells = { Unit {0} };

    ghost told = { λ m. told_by m };

    ghost faults = { λ m. m.faults };

    fn attach(&mut self, journal: &str, port: &str) -> Result<(), Failed>
        ensures cause { HasCause self.old.faults self.new.faults result }
        ensures told { Unit {0} → Attaches journal.now port.now result (told_by self.old) (told_by self.new) }
        ensures stays { Unit {0} → ReadMayStay (told_by self.new) }
        ensures plays { let answer = answer_unless_stopped self.old.calls tt in Plays (Call.Attach journal.now port.now answer) answer result self.old self.new }
    {
        let alloc = self.tape().allocator();
        let Ok((journal, port)) = kept_names(alloc, journal, port) else {
            return self.starve();
        };
        let answer = self.unless_stopped(());
        let call = Call::Attach {
            journal,
            port,
            answer,
        };
        self.play_here(call, answer)
    }

    fn size(&mut self) -> Result<u64, Failed>
        ensures cause { HasCause self.old.faults self.new.faults result }
        ensures size { Unit {0} → IfOk result (λ size. size ≡ length (told_by self.old).journal) }
        ensures told { Unit {0} → Reads (Call.Size result) (told_by self.old) (told_by self.new) }
        ensures stays { Unit {0} → ReadMayStay (told_by self.new) }
        ensures plays { let answer = answer_unless_stopped self.old.calls (length (state_of self.old.calls).journal) in Plays (Call.Size answer) answer result self.old self.new }
    {
        let size = self.tape().journal().len() as u64;
        let answer = self.unless_stopped(size);
        self.play_here(Call::Size { answer }, answer)
    }

    fn read_at(&mut self, at: u64, into: &mut [u8]) -> Result<usize, Failed>
        ensures cause { HasCause self.old.faults self.new.faults result }
        ensures bound { IfOk result (λ n. n ≤ length into.new) }
        ensures bytes { Unit {0} → IfOk result (λ n. ReadsFront at n (told_by self.old).journal into.old into.new) }
        ensures untouched { Unit {0} → OnErr result (into.new ≡ into.old) }
        ensures told { Unit {0} → Reads (Call.Read at (length into.old) result) (told_by self.old) (told_by self.new) }
        ensures stays { Unit {0} → ReadMayStay (told_by self.new) }
        ensures plays { let answer = answer_unless_stopped self.old.calls (min (length into.old) (length (state_of self.old.calls).journal - at)) in Plays (Call.Read at (length into.old) answer) answer result self.old self.new }
    {
        let room = into.len();
        let count = count_at(self.tape().journal(), at, room);
        let answer = self.unless_stopped(count);
        let Ok(count) = self.play_here(Call::Read { at, room, answer }, answer) else {
            return Err(Failed);
        };
        copy_at(self.tape().journal(), at, &mut into[..count]);
        Ok(count)
    }

    fn write_at(&mut self, at: u64, from: &[u8]) -> Result<(), Failed>
        requires { Unit {0} → at ≤ length (told_by self.old).journal }
        ensures cause { HasCause self.old.faults self.new.faults result }
        ensures told { Unit {0} → Writes at from.now result (told_by self.old) (told_by self.new) }
        ensures stays { Unit {0} → ReadMayStay (told_by self.new) }
        ensures plays { let outcome = outcome_by self.old.plan self.old.calls in Plays (Call.Write at from.now outcome) (answer_of outcome) result self.old self.new }
    {
        let Ok(bytes) = Handed::new(self.tape().allocator(), from) else {
            return self.starve();
        };
        let outcome = self.next_outcome();
        self.play_here(Call::Write { at, bytes, outcome }, answer_to(outcome))
    }

    fn sync(&mut self) -> Result<(), Failed>
        ensures cause { HasCause self.old.faults self.new.faults result }
        ensures told { Unit {0} → Syncs result (told_by self.old) (told_by self.new) }
        ensures stays { Unit {0} → ReadMayStay (told_by self.new) }
        ensures plays { let outcome = outcome_by self.old.plan self.old.calls in Plays (Call.Sync outcome) (answer_of outcome) result self.old self.new }
    {
        let outcome = self.next_outcome();
        self.play_here(Call::Sync { outcome }, answer_to(outcome))
    }

    fn listen(&mut self, into: &mut [u8; 64]) -> Result<Heard, Failed>
        ensures cause { HasCause self.old.faults self.new.faults result }
        ensures piece { IfOk result IsPiece }
        ensures rest { Unit {0} → LeavesRest result into.old into.new }
        ensures told { Unit {0} → Listens into.new result (told_by self.old) (told_by self.new) }
        ensures stays { Unit {0} → ReadMayStay (told_by self.new) }
        ensures plays { let answer = answer_unless_stopped self.old.calls (heard_of (due_by self.old.plan.fed self.old.calls)) in Plays (Call.Listen answer) answer (listened into.new result) self.old self.new }
    {
        if self.tape().is_stopped() {
            let answer = Err(Failed);
            return self.play_here(Call::Listen { answer }, Err(Failed));
        }
        let mut piece = *into;
        let (heard, behind) = self.next_heard(&mut piece);
        let Ok(answer) = kept_answer(self.tape().allocator(), heard, &piece) else {
            return self.starve();
        };
        let answer = Ok(answer);
        if self.play(Call::Listen { answer }, behind) {
            *into = piece;
            return Ok(heard);
        }
        Err(Failed)
    }

    fn speak(&mut self, bytes: &[u8]) -> Result<(), Failed>
        ensures cause { HasCause self.old.faults self.new.faults result }
        ensures told { Unit {0} → Speaks bytes.now result (told_by self.old) (told_by self.new) }
        ensures stays { Unit {0} → ReadMayStay (told_by self.new) }
        ensures plays { let outcome = outcome_by self.old.plan self.old.calls in Plays (Call.Speak bytes.now outcome) (answer_of outcome) result self.old self.new }
    {
        let Ok(bytes) = Handed::new(self.tape().allocator(), bytes) else {
            return self.starve();
        };
        let outcome = self.next_outcome();
        self.play_here(Call::Speak { bytes, outcome }, answer_to(outcome))
    }
}

/// The answer of a call that went so.
fn answer_to(outcome: Outcome) -> Result<(), Failed>
    ensures { result ≡ answer_of outcome }
{
    match outcome {
        Outcome::Done => Ok(()),
        Outcome::Failing | Outcome::Stopped(_) => Err(Failed),
    }
}

fn kept_names(alloc: Global, journal: &str, port: &str) -> Result<(Handed, Handed), AllocError>
    ensures { IfOk result (λ names. (names.0 ≡ journal.now) × (names.1 ≡ port.now)) }
{
    let journal = Handed::new(alloc, journal.as_bytes())?;
    let port = Handed::new(alloc, port.as_bytes())?;
    Ok((journal, port))
}

/// What was heard, with the bytes of it.
fn kept_answer(alloc: Global, heard: Heard, into: &[u8; 64]) -> Result<Reception, AllocError>
    requires { IsPiece heard }
    ensures { IfOk result (λ answer. answer ≡ heard_in into.now heard) }
{
    match heard {
        Heard::Bytes(count) => Ok(Reception::Piece(Handed::new(alloc, &into[..count])?)),
        Heard::Quiet => Ok(Reception::Silence),
        Heard::Unplugged => Ok(Reception::Cut),
    }
}

/// How many bytes a read from a place on gives.
fn count_at(bytes: &[u8], at: u64, room: usize) -> usize
    ensures { result ≡ min room (length bytes.now - at) }
{
    if at >= bytes.len() as u64 {
        return 0;
    }
    room.min(bytes.len() - at as usize)
}

/// Fills the buffer with the bytes from a place on.
fn copy_at(bytes: &[u8], at: u64, into: &mut [u8])
    requires { length into.old ≤ length bytes.now - at }
    ensures { into.new ≡ take (length into.old) (drop at bytes.now) }
{
    if into.is_empty() {
        return;
    }
    let from = at as usize;
    into.copy_from_slice(&bytes[from..from + into.len()]);
}
