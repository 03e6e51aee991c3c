//! The program `book_trace`: what the rules of two ends answer to many calls, so that they can be held to rules that others wrote.
//!
//! Standard input has a call a line: the end, `S` or `R`, the call, and a set whose segments each end in `~`. A proposal is signed with its base
//! record, an adjustment and an acceptance with the delivery, the lines and the signature that the set has, and `signs` and `took` admit it as it
//! is. A line is printed for each: what was signed or taken, or why not. `show` prints a line for each delivery.
//!
//! With two words, the end and a file, the calls are those of its book over the journal in the file, without the end before them. What they add is
//! staged, and flushed at a line without a set.
#![tactic(auto)]

mod calls;
mod keeping;
mod printing;

use calls::call;
use delivery_book::Rules;
use dsd_station::{StdSource, read_up_to};
use dsd_values::Role;
use keeping::keep;
use printing::print_deliveries;
use std::alloc::Global;
use std::{env, io, str};

/// The most bytes of the calls.
const CALLS_BYTES: usize = 1 << 24;

/// The rules of both ends.
#[derive(Drop)]
struct Ends {
    supplier: Rules,
    receiver: Rules,
}

/// Does what a line says at an end.
fn act(rt: &impl Print, alloc: Global, rules: &mut Rules, words: &str) -> io::Result<()> {
    match words.split_once(' ') {
        Some((name, set)) => call(rt, alloc, rules, name, set),
        None => print_deliveries(rt, rules),
    }
}

fn play(rt: &impl Print, alloc: Global, ends: &mut Ends, line: &str) -> io::Result<()> {
    match line.split_once(' ') {
        Some(("S", words)) => act(rt, alloc, &mut ends.supplier, words),
        Some(("R", words)) => act(rt, alloc, &mut ends.receiver, words),
        _ => begin(alloc, ends),
    }
}

/// Begins anew.
fn begin(alloc: Global, ends: &mut Ends) -> io::Result<()> {
    *ends = without_entries(alloc);
    Ok(())
}

fn without_entries(alloc: Global) -> Ends {
    Ends {
        supplier: Rules::new(alloc, Role::Supplier),
        receiver: Rules::new(alloc, Role::Receiver),
    }
}

/// Plays the lines at the rules of both ends.
fn play_all(rt: &impl Print, alloc: Global, calls: &str) -> io::Result<()> {
    let mut ends = without_entries(alloc);
    for line in calls.lines() {
        play(rt, alloc, &mut ends, line)?;
    }
    Ok(())
}

fn role_of(word: &str) -> Role {
    match word {
        "S" => Role::Supplier,
        _ => Role::Receiver,
    }
}

fn main(rt: HostRuntime) -> io::Result<()> {
    let alloc = rt.alloc();
    let mut words = env::args(&rt)?.skip(1);
    let mut source = StdSource::new(rt.stdin());
    let Ok(text) = read_up_to(alloc, &mut source, CALLS_BYTES) else {
        return Ok(());
    };
    let Ok(calls) = str::from_utf8(&text) else {
        return Ok(());
    };
    match (words.next(), words.next()) {
        (Some(role), Some(journal)) => keep(&rt, alloc, &rt, role_of(&role), &journal, calls),
        _ => play_all(&rt, alloc, calls),
    }
}
