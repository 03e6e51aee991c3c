//! The program `bench_versions`, which `bench/` measures: the version that a delivery and the answers to it make.
//!
//! Reads a transmission from standard input, its set 894 first, applies each set 895 in turn, and prints level, quantity
//! and amount of the version. No job of `dex` does so yet.
#![tactic(auto)]

use adjustment_895::read_895;
use base_record_894::read_894;
use dsd_record::DsdRecord;
use dsd_station::{StdSink, StdSource, read_up_to, write_all};
use dsd_values::HIGHEST_LEVEL;
use dxs_envelope::{SetSlice, Sets, TRANSMISSION_BYTES};
use std::alloc::{AllocError, Global};
use std::process::ExitCode;

/// The version that the sets of a transmission make, where the first is a delivery and each other one applies.
fn version_of(alloc: Global, text: &[u8]) -> Option<DsdRecord> {
    let mut sets = Sets::new(text);
    let Ok(Some(first)) = sets.next() else {
        return None;
    };
    let mut record = delivered(alloc, &first)?;
    for _ in 0..=HIGHEST_LEVEL {
        let Ok(Some(set)) = sets.next() else {
            return Some(record);
        };
        if !applies(alloc, &mut record, &set) {
            return None;
        }
    }
    Some(record)
}

fn delivered(alloc: Global, set: &SetSlice<'_>) -> Option<DsdRecord> {
    let Ok((base, seal)) = read_894(alloc, set.bytes()) else {
        return None;
    };
    DsdRecord::from_base(alloc, &base, seal.check).ok()
}

fn applies(alloc: Global, record: &mut DsdRecord, set: &SetSlice<'_>) -> bool {
    let Ok((answer, seal)) = read_895(alloc, set.bytes()) else {
        return false;
    };
    record.apply(&answer, seal.check).is_ok()
}

fn text_of(alloc: Global, record: &DsdRecord) -> Result<String, AllocError> {
    let totals = record.totals();
    let (level, quantity, amount) = (record.level().get(), totals.quantity, totals.amount.get());
    format!(in alloc; "LEVEL {level}\nQUANTITY {quantity}\nAMOUNT {amount}\n")
}

fn main(rt: HostRuntime) -> ExitCode {
    let alloc = rt.alloc();
    let mut source = StdSource::new(rt.stdin());
    let mut sink = StdSink::new(rt.stdout());
    let Ok(text) = read_up_to(alloc, &mut source, TRANSMISSION_BYTES) else {
        return ExitCode::FAILURE;
    };
    let Some(record) = version_of(alloc, &text) else {
        return ExitCode::FAILURE;
    };
    let Ok(report) = text_of(alloc, &record) else {
        return ExitCode::FAILURE;
    };
    match write_all(&mut sink, report.as_bytes()) {
        Ok(()) => ExitCode::SUCCESS,
        Err(_) => ExitCode::FAILURE,
    }
}
