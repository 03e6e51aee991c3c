ghost use Rattle.std.specs.Prelude.{◌≡◌, ◌<◌, IfOk, Ok, Err};
ghost use Rattle.dsd_station.specs.Causes.{HasCause};
ghost use Rattle.dsd_station.specs.Told.{nothing_told};
ghost use Rattle.dsd_station.specs.Effects.{IsPiece};

use crate::Failed;
use crate::opening::{length_of, open_both};
use crate::standard::{read_again, read_at_again};
use crate::station::{Heard, Station};
use std::fs::File;
use std::io;
use std::io::Write;
use std::os::unix::fs::FileExt;
use std::rt::Files;

/// The real station: a journal file, and a port that is opened like a file.
///
/// It tells nothing of content: that a file keeps what was synced, and that a port gives what was sent, is for no
/// proof to say. A read of 0 bytes from the port is Quiet, so the port has to be set to give up a read after a
/// while. It never answers Unplugged. Any call before an attachment that answered Ok fails, and so do `listen` and
/// `speak` without a port.
#[derive(Drop)]
pub struct FileStation<'a, R> {
    files: &'a R,
    journal: Option<File>,
    port: Option<File>,
    faults: u64,
}

impl<'a, R: Files<File = File>> FileStation<'a, R> {
    /// A station that opens its two files in this file system, once it is attached.
    pub fn new(files: &'a R) -> FileStation<'a, R> {
        FileStation {
            files,
            journal: None,
            port: None,
            faults: 0,
        }
    }

    /// The answer of a call of the system, where a fault is counted.
    fn answer<T: Drop>(&mut self, answer: io::Result<T>) -> Result<T, Failed>
        ensures cause { HasCause self.old.faults self.new.faults result }
        ensures value { IfOk result (λ value. answer ≡ Ok value) }
    {
        match answer {
            Ok(value) => Ok(value),
            Err(_) => {
                self.faults = self.faults.saturating_add(1);
                Err(Failed)
            }
        }
    }
}

impl<'a, R: Files<File = File>> Station for FileStation<'a, R> {
    ghost tells = { ⊥ };

    ghost told = { λ _. nothing_told };

    ghost faults = { λ s. s.faults };

    /// Opens the journal for reading and writing, making it where it is missing, and asks for a lock on it. Where
    /// another run holds the lock it fails, as it does where the journal is no regular file, or is standard input,
    /// standard output or the port. What was attached before is let go first.
    fn attach(&mut self, journal: &str, port: &str) -> Result<(), Failed> {
        self.journal = None;
        self.port = None;
        let opened = open_both(self.files, journal, port);
        let (journal, port) = self.answer(opened)?;
        self.journal = Some(journal);
        self.port = port;
        Ok(())
    }

    fn size(&mut self) -> Result<u64, Failed> {
        let answer = match &self.journal {
            Some(journal) => length_of(journal),
            None => Err(not_attached()),
        };
        self.answer(answer)
    }

    fn read_at(&mut self, at: u64, into: &mut [u8]) -> Result<usize, Failed> {
        let answer = match &self.journal {
            Some(journal) => read_at_again(journal, into, at),
            None => Err(not_attached()),
        };
        self.answer(answer)
    }

    fn write_at(&mut self, at: u64, from: &[u8]) -> Result<(), Failed> {
        let answer = match &self.journal {
            Some(journal) => journal.write_all_at(from, at),
            None => Err(not_attached()),
        };
        self.answer(answer)
    }

    fn sync(&mut self) -> Result<(), Failed> {
        let answer = match &self.journal {
            Some(journal) => journal.sync_all(),
            None => Err(not_attached()),
        };
        self.answer(answer)
    }

    fn listen(&mut self, into: &mut [u8; 64]) -> Result<Heard, Failed> {
        let answer = match &mut self.port {
            Some(port) => heard(port, into),
            None => Err(not_attached()),
        };
        self.answer(answer)
    }

    fn speak(&mut self, bytes: &[u8]) -> Result<(), Failed> {
        let answer = match &mut self.port {
            Some(port) => port.write_all(bytes),
            None => Err(not_attached()),
        };
        self.answer(answer)
    }
}

fn not_attached() -> io::Error {
    io::Error::from(io::ErrorKind::NotConnected)
}

/// What a port gives, the bytes of it at the front of the buffer.
fn heard(port: &mut File, into: &mut [u8; 64]) -> io::Result<Heard>
    ensures { IfOk result IsPiece }
{
    let count = read_again(port, into)?;
    if count == 0 {
        return Ok(Heard::Quiet);
    }
    Ok(Heard::Bytes(count))
}
