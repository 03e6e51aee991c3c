ghost use Rattle.std.specs.Prelude.{◌≡◌};
ghost use Rattle.std.specs.Io.{ReadsAtMost, WritesAtMost};
ghost use Rattle.std.specs.Io.KnownBytes.{ReadConsumes, WriteAppends};

use crate::{Failed, Sink, Source};
use std::fs::File;
use std::io;
use std::io::{ErrorKind, Read, Write};
use std::os::unix::fs::FileExt;

/// How often in a row a call is made again that a signal interrupted. After that it counts as a fault.
pub(crate) const MOST_INTERRUPTS: u32 = 1_000_000;

/// A reader of std as a source: standard input in the program. It buffers nothing, and tells what its reader
/// tells. A read that a signal interrupts is made again and is no fault, as in `read_to_end`.
#[derive(Drop)]
pub struct StdSource<R: Read> {
    reader: R,
    ends: u64,
    faults: u64,
}

impl<R: Read> StdSource<R> {
    pub fn new(reader: R) -> Self {
        StdSource {
            reader,
            ends: 0,
            faults: 0,
        }
    }
}

impl<R: Read> Source for StdSource<R> {
    ghost left = { λ s. R.remaining s.reader };

    ghost ends = { λ s. s.ends };

    ghost faults = { λ s. s.faults };

    fn read(&mut self, into: &mut [u8]) -> Result<usize, Failed> {
        match read_again(&mut self.reader, into) {
            Ok(0) => {
                self.ends = self.ends.saturating_add(1);
                Ok(0)
            }
            Ok(count) => Ok(count),
            Err(_) => {
                self.faults = self.faults.saturating_add(1);
                Err(Failed)
            }
        }
    }
}

/// A writer of std as a sink: standard output in the program. It buffers nothing, and tells what its writer
/// tells. A write that a signal interrupts is made again and is no fault, as in `write_all`. One that takes
/// nothing of a piece that is not empty is a fault.
#[derive(Drop)]
pub struct StdSink<W: Write> {
    writer: W,
    is_shut: bool,
    faults: u64,
}

impl<W: Write> StdSink<W> {
    pub fn new(writer: W) -> Self {
        StdSink {
            writer,
            is_shut: false,
            faults: 0,
        }
    }

    /// A sink that hands nothing to its writer: each write is a fault.
    pub fn shut(writer: W) -> Self {
        StdSink {
            writer,
            is_shut: true,
            faults: 0,
        }
    }

    fn hand_on(&mut self, from: &[u8]) -> io::Result<usize>
        ensures bound { WritesAtMost result from.now }
        ensures bytes { WriteAppends (W.contents self.old.writer) (W.contents self.new.writer) result from.now }
        ensures count { self.old.faults ≡ self.new.faults }
    {
        if self.is_shut {
            return Err(io::Error::from(ErrorKind::PermissionDenied));
        }
        write_again(&mut self.writer, from)
    }
}

impl<W: Write> Sink for StdSink<W> {
    ghost written = { λ s. W.contents s.writer };

    ghost faults = { λ s. s.faults };

    fn write(&mut self, from: &[u8]) -> Result<usize, Failed> {
        match self.hand_on(from) {
            Ok(count) if count > 0 || from.is_empty() => Ok(count),
            _ => {
                self.faults = self.faults.saturating_add(1);
                Err(Failed)
            }
        }
    }
}

/// One read, made again where a signal interrupts it.
#[tactic(auto, using(crate::proofs::Joined::kept_reads))]
pub(crate) fn read_again<R: Read>(reader: &mut R, into: &mut [u8]) -> io::Result<usize>
    ensures bound { ReadsAtMost result into.new }
    ensures bytes { ReadConsumes (R.remaining reader.old) (R.remaining reader.new) result into.new }
{
    for _ in 0..MOST_INTERRUPTS {
        match reader.read(into) {
            Err(error) if error.kind() == ErrorKind::Interrupted => {}
            answer => return answer,
        }
    }
    reader.read(into)
}

/// One read of a file at a place, made again where a signal interrupts it.
pub(crate) fn read_at_again(file: &File, into: &mut [u8], at: u64) -> io::Result<usize>
    ensures { ReadsAtMost result into.new }
{
    for _ in 0..MOST_INTERRUPTS {
        match file.read_at(into, at) {
            Err(error) if error.kind() == ErrorKind::Interrupted => {}
            answer => return answer,
        }
    }
    file.read_at(into, at)
}

/// One write, made again where a signal interrupts it.
#[tactic(auto, using(crate::proofs::Joined::kept_writes))]
fn write_again<W: Write>(writer: &mut W, from: &[u8]) -> io::Result<usize>
    ensures bound { WritesAtMost result from.now }
    ensures bytes { WriteAppends (W.contents writer.old) (W.contents writer.new) result from.now }
{
    for _ in 0..MOST_INTERRUPTS {
        match writer.write(from) {
            Err(error) if error.kind() == ErrorKind::Interrupted => {}
            answer => return answer,
        }
    }
    writer.write(from)
}
