use crate::opening::look;
use crate::standard::{StdSink, read_again};
use std::fs::{File, OpenOptions};
use std::io::Write;
use std::rt::Files;
use std::{io, str};

/// Where the system shows what standard output leads to.
const OUTPUT: &str = "/proc/self/fd/1";

/// Where the system tells at which place standard output stands, and how it was opened.
const OUTPUT_STATE: &str = "/proc/self/fdinfo/1";

/// The flag of a descriptor whose writes all go to the end of the file.
const APPENDS: u32 = 0o2000;

/// Standard output as a sink. Where a write would go over bytes that a file has, as after a shell's `1<>`, the sink
/// is shut: so nothing is printed over a journal.
pub fn standard_output<R: Files<File = File>, W: Write>(files: &R, writer: W) -> StdSink<W> {
    if goes_over(files) {
        return StdSink::shut(writer);
    }
    StdSink::new(writer)
}

/// Whether standard output is a file that has bytes where the next one would be written. A file of which that
/// cannot be told counts as one.
fn goes_over<R: Files<File = File>>(files: &R) -> bool {
    match look(files, OUTPUT) {
        Ok(Some(found)) if found.is_file() && found.len() > 0 => {
            !stands_behind(files, found.len()).unwrap_or(false)
        }
        _ => false,
    }
}

/// Whether standard output stands behind this many bytes.
fn stands_behind<R: Files<File = File>>(files: &R, bytes: u64) -> io::Result<bool> {
    let mut state = [0; 256];
    let mut file = OpenOptions::new().read(true).open(files, OUTPUT_STATE)?;
    let count = read_again(&mut file, &mut state)?;
    let Ok(state) = str::from_utf8(&state[..count]) else {
        return Ok(false);
    };
    Ok(says_place(state).is_some_and(|place| place >= bytes) || says_appends(state))
}

/// The place that a descriptor's state names.
fn says_place(state: &str) -> Option<u64> {
    said(state, "pos:")?.parse().ok()
}

/// Whether a descriptor's state has the flag of one that appends.
fn says_appends(state: &str) -> bool {
    match said(state, "flags:") {
        Some(flags) => u32::from_str_radix(flags, 8).is_ok_and(|flags| flags & APPENDS != 0),
        None => false,
    }
}

/// What stands behind a name in a descriptor's state.
fn said<'a>(state: &'a str, name: &str) -> Option<&'a str> {
    for line in state.lines() {
        if let Some(rest) = line.strip_prefix(name) {
            return Some(rest.trim());
        }
    }
    None
}
