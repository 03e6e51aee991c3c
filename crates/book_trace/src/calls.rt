//! The calls.

use crate::printing::print_answer;
use adjustment_895::{Answer895, read_895};
use base_record_894::read_894;
use delivery_book::{AdmitFault, RuleFault, Rules};
use dsd_journal::EntryKind;
use std::alloc::Global;
use std::io;

/// Does the call of this name with a set, and prints what it answers.
pub fn call(
    rt: &impl Print,
    alloc: Global,
    rules: &mut Rules,
    name: &str,
    set: &str,
) -> io::Result<()> {
    let text = spelled(alloc, set)?;
    match name {
        "signs" => admit(rt, rules, EntryKind::Signed, &text),
        "took" => admit(rt, rules, EntryKind::Took, &text),
        _ => {
            let answer = done(alloc, rules, name, &text);
            print_answer(rt, rules, answer)
        }
    }
}

/// Does one of the four calls.
fn done(alloc: Global, rules: &mut Rules, name: &str, text: &[u8]) -> Result<(), RuleFault> {
    if name == "take" {
        return rules.take(text);
    }
    if name == "propose" {
        return match read_894(alloc, text) {
            Ok((base, _seal)) => rules.propose(base),
            Err(fault) => Err(RuleFault::Set(fault)),
        };
    }
    match read_895(alloc, text) {
        Ok((answer, _seal)) => signed(rules, &answer),
        Err(fault) => Err(RuleFault::Set(fault)),
    }
}

/// Signs an answer with the delivery, the lines and the signature of this one.
fn signed(rules: &mut Rules, answer: &Answer895) -> Result<(), RuleFault> {
    let lines = answer.lines();
    if lines.as_slice().is_empty() {
        return rules.accept(answer.number(), answer.signature());
    }
    rules.adjust(answer.number(), lines, answer.signature())
}

fn admit(rt: &impl Print, rules: &mut Rules, kind: EntryKind, text: &[u8]) -> io::Result<()> {
    match rules.admit(kind, text) {
        Ok(()) => println!(rt; "ADMITTED"),
        Err(AdmitFault::Illegal) => println!(rt; "ILLEGAL"),
        Err(AdmitFault::Memory) => println!(rt; "MEMORY"),
    }
}

/// The text with its line ends.
pub fn spelled(alloc: Global, set: &str) -> io::Result<Vec<u8>> {
    let mut text = Vec::new(alloc);
    for byte in set.as_bytes() {
        if *byte == b'~' {
            text.push(b'\r')?;
            text.push(b'\n')?;
        } else {
            text.push(*byte)?;
        }
    }
    Ok(text)
}
