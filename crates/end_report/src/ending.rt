//! How the last run of an end came out.

ghost use Rattle.std.specs.Prelude.{◌≡◌, ◌++◌, OnOk};
ghost use Rattle.end_report.specs.Reports.{ending_text, last_line, last_text, session_text};

use crate::lines::{put, put_bytes, put_named};
use crate::settled::put_two;
use dex_handshake::SessionEnd;
use std::alloc::{AllocError, Global};

/// How a session has ended.
#[derive(Clone, Copy, Debug, PartialEq, Eq)]
pub enum Ending {
    Session(SessionEnd),
    /// More was heard than a session may hear.
    Noise,
}

/// How the last run of an end came out.
#[derive(Clone, Copy, Debug, PartialEq, Eq)]
pub enum LastRun {
    /// The end was never started.
    Never,
    /// A stop fell in it.
    Stopped,
    /// A call of its station failed.
    StationFault,
    /// Its journal has no room for the next entry.
    Full,
    /// It has not ended.
    Running,
    /// It has ended so.
    Ended(Ending),
}

/// Prints how the last run of an end came out.
pub fn put_last_run(alloc: Global, out: &mut Vec<u8>, last: LastRun) -> Result<(), AllocError>
    ensures { OnOk result (out.new.items ≡ out.old.items ++ last_line last) }
{
    put(out, "SESSION ")?;
    put_last(alloc, out, last)?;
    put(out, "\n")
}

fn put_last(alloc: Global, out: &mut Vec<u8>, last: LastRun) -> Result<(), AllocError>
    ensures { OnOk result (out.new.items ≡ out.old.items ++ last_text last) }
{
    match last {
        LastRun::Never => put(out, "NEVER"),
        LastRun::Stopped => put(out, "STOPPED"),
        LastRun::StationFault => put(out, "FAULT STATION"),
        LastRun::Full => put(out, "FULL"),
        LastRun::Running => put(out, "RUNNING"),
        LastRun::Ended(ending) => put_ending(alloc, out, ending),
    }
}

fn put_ending(alloc: Global, out: &mut Vec<u8>, ending: Ending) -> Result<(), AllocError>
    ensures { OnOk result (out.new.items ≡ out.old.items ++ ending_text ending) }
{
    match ending {
        Ending::Session(end) => put_session(alloc, out, end),
        Ending::Noise => put(out, "NOISE"),
    }
}

fn put_session(alloc: Global, out: &mut Vec<u8>, end: SessionEnd) -> Result<(), AllocError>
    ensures { OnOk result (out.new.items ≡ out.old.items ++ session_text end) }
{
    match end {
        SessionEnd::Complete => put(out, "COMPLETE"),
        SessionEnd::Silent => put(out, "SILENT"),
        SessionEnd::TriesSpent(block) => put_named(alloc, out, "TRIES", u64::from(block)),
        SessionEnd::PartnerRefused(code) => {
            put(out, "REFUSED ")?;
            put_two(out, code)
        }
        SessionEnd::WrongPartner(id) => {
            put(out, "PARTNER ")?;
            put_bytes(out, &id.get())
        }
        SessionEnd::TextLimit => put(out, "TEXT"),
        SessionEnd::Unplugged => put(out, "UNPLUGGED"),
    }
}
