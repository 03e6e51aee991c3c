//! The program `bench_end`, which `bench/` measures: what a session takes, and what each end of it asks of its station.
//!
//! Standard input has drafts, and behind them counts. `both SIZE`, with the size of the drafts, plays a session over stations in memory and prints a
//! line for each end. `again SIZE` plays a second session on the same journals. `supplier SIZE` and `receiver SIZE` play that end once more, alone,
//! over a station that was fed all that the other end had said.
#![tactic(auto)]

ghost use Rattle.std.specs.Prelude.{IfSome};
ghost use Rattle.bench_end.specs.Standing.{CanPoll};

mod playing;
mod telling;

use dsd_record::Decider;
use dsd_station::{StdSource, read_up_to};
use dsd_values::Role;
use handheld_core::Drafts;
use playing::{Side, alone, begin, play, reopen};
use receiver_core::Counts;
use std::alloc::Global;
use std::{env, io};
use telling::{counted, print_figures};

/// The most bytes of the drafts and counts.
const INPUT_BYTES: usize = 4_194_304;

/// The drafts and the counts of an input.
#[derive(Clone, Copy)]
struct Script<'a> {
    drafts: &'a [u8],
    counts: &'a [u8],
}

/// The input with drafts of this size.
fn script_of(input: &[u8], size: usize) -> Option<Script<'_>> {
    Some(Script {
        drafts: input.get(..size)?,
        counts: input.get(size..)?,
    })
}

/// Prints what an end asked of its station.
fn print_side<D: Decider>(
    rt: &impl Print,
    name: &str,
    role: Role,
    side: &Side<D>,
) -> io::Result<()> {
    match side.station.calls().get(side.since..) {
        Some(calls) => print_figures(rt, name, counted(role, calls)),
        None => Ok(()),
    }
}

/// Both ends of a session that was played.
#[derive(Drop)]
struct Ends {
    supplier: Side<Drafts>,
    receiver: Side<Counts>,
}

fn print_ends(rt: &impl Print, ends: &Ends) -> io::Result<()> {
    print_side(rt, "supplier", Role::Supplier, &ends.supplier)?;
    print_side(rt, "receiver", Role::Receiver, &ends.receiver)
}

/// Plays a session of these two ends.
fn session(mut supplier: Side<Drafts>, mut receiver: Side<Counts>) -> Option<Ends>
    requires supplier { CanPoll supplier.end.core supplier.station }
    requires receiver { CanPoll receiver.end.core receiver.station }
{
    match play(&mut supplier, &mut receiver) {
        Some(()) => Some(Ends { supplier, receiver }),
        None => None,
    }
}

/// The supplier's end, over the journal of an earlier one or over a new one.
fn supplier_of(
    alloc: Global,
    script: Script<'_>,
    earlier: Option<Side<Drafts>>,
) -> Option<Side<Drafts>>
    ensures { IfSome result (λ side. CanPoll side.end.core side.station) }
{
    let Ok(drafts) = Drafts::read(alloc, script.drafts) else {
        return None;
    };
    match earlier {
        Some(side) => reopen(alloc, side, Role::Supplier, drafts),
        None => begin(alloc, Role::Supplier, drafts),
    }
}

/// The receiver's end likewise.
fn receiver_of(
    alloc: Global,
    script: Script<'_>,
    earlier: Option<Side<Counts>>,
) -> Option<Side<Counts>>
    ensures { IfSome result (λ side. CanPoll side.end.core side.station) }
{
    let Ok(counts) = Counts::read(alloc, script.counts) else {
        return None;
    };
    match earlier {
        Some(side) => reopen(alloc, side, Role::Receiver, counts),
        None => begin(alloc, Role::Receiver, counts),
    }
}

/// Plays a session on new journals.
fn first(alloc: Global, script: Script<'_>) -> Option<Ends> {
    let supplier = supplier_of(alloc, script, None)?;
    let receiver = receiver_of(alloc, script, None)?;
    session(supplier, receiver)
}

/// Plays a session on the journals of one that was played.
fn second(alloc: Global, script: Script<'_>, ends: Ends) -> Option<Ends> {
    let Ends { supplier, receiver } = ends;
    let supplier = supplier_of(alloc, script, Some(supplier))?;
    let receiver = receiver_of(alloc, script, Some(receiver))?;
    session(supplier, receiver)
}

/// Plays the supplier alone.
fn supplier_alone(alloc: Global, script: Script<'_>, ends: &Ends) -> Option<Side<Drafts>> {
    let drafts = Drafts::read(alloc, script.drafts).ok()?;
    alone(
        alloc,
        Role::Supplier,
        drafts,
        ends.receiver.station.spoken(),
    )
}

/// Plays the receiver alone.
fn receiver_alone(alloc: Global, script: Script<'_>, ends: &Ends) -> Option<Side<Counts>> {
    let counts = Counts::read(alloc, script.counts).ok()?;
    alone(
        alloc,
        Role::Receiver,
        counts,
        ends.supplier.station.spoken(),
    )
}

/// Plays what a job plays behind the first session.
fn go_on(
    rt: &impl Print,
    alloc: Global,
    job: &str,
    script: Script<'_>,
    ends: Ends,
) -> io::Result<()> {
    match job {
        "again" => match second(alloc, script, ends) {
            Some(ends) => print_ends(rt, &ends),
            None => Ok(()),
        },
        "supplier" => match supplier_alone(alloc, script, &ends) {
            Some(side) => print_side(rt, "supplier alone", Role::Supplier, &side),
            None => Ok(()),
        },
        "receiver" => match receiver_alone(alloc, script, &ends) {
            Some(side) => print_side(rt, "receiver alone", Role::Receiver, &side),
            None => Ok(()),
        },
        _ => Ok(()),
    }
}

fn run(rt: &impl Print, alloc: Global, job: &str, script: Script<'_>) -> io::Result<()> {
    let Some(ends) = first(alloc, script) else {
        return println!(rt; "no session");
    };
    print_ends(rt, &ends)?;
    go_on(rt, alloc, job, script, ends)
}

fn main(rt: HostRuntime) -> io::Result<()> {
    let mut words = env::args(&rt)?.skip(1);
    let (Some(job), Some(size)) = (words.next(), words.next()) else {
        return Ok(());
    };
    let Ok(size) = size.parse::<usize>() else {
        return Ok(());
    };
    let mut source = StdSource::new(rt.stdin());
    let Ok(input) = read_up_to(rt.alloc(), &mut source, INPUT_BYTES) else {
        return Ok(());
    };
    match script_of(input.as_slice(), size) {
        Some(script) => run(&rt, rt.alloc(), job.as_str(), script),
        None => Ok(()),
    }
}
