use dsd_station::{Failed, Sink, Source, StdSink, StdSource};
use std::io;
use std::io::{ErrorKind, Read, Write};

/// Reads and writes two bytes a call. A signal interrupts the second call, and the fourth fails.
#[derive(Drop)]
struct Shaky {
    calls: u32,
}

impl Shaky {
    fn call(&mut self) -> io::Result<()> {
        self.calls = self.calls.saturating_add(1);
        match self.calls {
            2 => Err(io::Error::from(ErrorKind::Interrupted)),
            4 => Err(io::Error::from(ErrorKind::BrokenPipe)),
            _ => Ok(()),
        }
    }
}

impl Read for Shaky {
    fn read(&mut self, buf: &mut [u8]) -> io::Result<usize> {
        self.call()?;
        Ok(buf.len().min(2))
    }
}

impl Write for Shaky {
    fn write(&mut self, buf: &[u8]) -> io::Result<usize> {
        self.call()?;
        Ok(buf.len().min(2))
    }

    fn flush(&mut self) -> io::Result<()> {
        Ok(())
    }
}

/// A signal is no fault.
#[test]
fn a_source_and_a_sink_are_asked_until_they_answer(rt: HostRuntime) {
    let mut source = StdSource::new(Shaky { calls: 0 });
    let mut sink = StdSink::new(Shaky { calls: 0 });
    let mut into = [0u8; 4];
    for wanted in [Ok(2), Ok(2), Err(Failed), Ok(2)] {
        let read = source.read(&mut into);
        assert!(rt; read == wanted && sink.write(b"abcd") == wanted);
    }
}
