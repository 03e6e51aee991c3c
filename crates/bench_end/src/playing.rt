//! Two ends over stations in memory, each of which hears what the other says.

ghost use Rattle.std.specs.Prelude.{IfSome};
ghost use Rattle.bench_end.specs.Standing.{CanPoll};

use dsd_end::{End, MOST_POLLS, Turn, open_end};
use dsd_journal::format;
use dsd_record::Decider;
use dsd_station::MemoryStation;
use dsd_values::{CommId, Role};
use std::alloc::Global;

/// The most times that one end is handed what the other said.
const MOST_ROUNDS: u32 = 1_000_000;

/// An end, and the station that it runs on.
#[derive(Drop)]
pub struct Side<D> {
    pub end: End<D>,
    pub station: MemoryStation,
    /// How many calls the station's record had before the end was opened.
    pub since: usize,
    /// How many of the bytes gone out were handed to the other end.
    pub handed: usize,
}

fn supplier() -> CommId {
    CommId::new([b'H', b'H', b'0', b'0', b'0', b'0', b'0', b'0', b'0', b'1'])
}

fn receiver() -> CommId {
    CommId::new([b'R', b'R', b'0', b'0', b'0', b'0', b'0', b'0', b'0', b'1'])
}

/// A station with a new journal of this role.
fn formatted(alloc: Global, role: Role) -> Option<MemoryStation> {
    let mut station = MemoryStation::new(alloc);
    let made = match role {
        Role::Supplier => format(&mut station, role, supplier(), receiver()),
        Role::Receiver => format(&mut station, role, receiver(), supplier()),
    };
    match made {
        Ok(()) => Some(station),
        Err(_) => None,
    }
}

/// Opens an end over the journal of this station.
fn open<D: Decider>(
    alloc: Global,
    mut station: MemoryStation,
    role: Role,
    decider: D,
) -> Option<Side<D>>
    ensures { IfSome result (λ side. CanPoll side.end.core side.station) }
{
    let since = station.calls().len();
    let handed = station.spoken().len();
    match open_end(alloc, &mut station, role, decider) {
        Ok(end) => Some(Side {
            end,
            station,
            since,
            handed,
        }),
        Err(_) => None,
    }
}

/// Opens an end over the journal of one whose session was played.
pub fn reopen<D: Decider + Drop>(
    alloc: Global,
    side: Side<D>,
    role: Role,
    decider: D,
) -> Option<Side<D>>
    ensures { IfSome result (λ side. CanPoll side.end.core side.station) }
{
    open(alloc, side.station, role, decider)
}

/// Opens an end over a new journal.
pub fn begin<D: Decider>(alloc: Global, role: Role, decider: D) -> Option<Side<D>>
    ensures { IfSome result (λ side. CanPoll side.end.core side.station) }
{
    match formatted(alloc, role) {
        Some(station) => open(alloc, station, role, decider),
        None => None,
    }
}

/// Polls an end until it has heard all that it was fed, or goes no further.
fn poll_all<D: Decider>(side: &mut Side<D>)
    requires { CanPoll side.old.end.core side.old.station }
    ensures { CanPoll side.new.end.core side.new.station }
{
    for _ in 0..MOST_POLLS {
        if side.station.is_heard() || !polls_on(side) {
            return;
        }
    }
}

/// Polls an end once. Tells whether its session goes on.
fn polls_on<D: Decider>(side: &mut Side<D>) -> bool
    requires { CanPoll side.old.end.core side.old.station }
    ensures { CanPoll side.new.end.core side.new.station }
{
    matches!(side.end.poll(&mut side.station), Ok(Turn::Running))
}

/// Feeds an end.
#[tactic(auto, using(crate::proofs::Fed::fed_stands))]
fn feed<D>(side: &mut Side<D>, bytes: &[u8]) -> Option<()>
    requires { CanPoll side.old.end.core side.old.station }
    ensures { CanPoll side.new.end.core side.new.station }
{
    match side.station.feed(bytes) {
        Ok(()) => Some(()),
        Err(_) => None,
    }
}

/// Hands what the one end has said since to the other. Tells whether there was something.
fn hand_on<A: Decider, B: Decider>(one: &mut Side<A>, other: &mut Side<B>) -> Option<bool>
    requires one { CanPoll one.old.end.core one.old.station }
    requires other { CanPoll other.old.end.core other.old.station }
    ensures one { CanPoll one.new.end.core one.new.station }
    ensures other { CanPoll other.new.end.core other.new.station }
{
    let said = one.station.spoken();
    let end = said.len();
    let more = said.get(one.handed..)?;
    if more.is_empty() {
        return Some(false);
    }
    feed(other, more)?;
    one.handed = end;
    poll_all(other);
    Some(true)
}

/// Plays a session: the supplier begins, and then each end hears what the other says, until neither says more.
pub fn play<A: Decider, B: Decider>(supplier: &mut Side<A>, receiver: &mut Side<B>) -> Option<()>
    requires supplier { CanPoll supplier.old.end.core supplier.old.station }
    requires receiver { CanPoll receiver.old.end.core receiver.old.station }
{
    let _ = polls_on(supplier);
    for _ in 0..MOST_ROUNDS {
        let there = hand_on(supplier, receiver)?;
        let back = hand_on(receiver, supplier)?;
        if !there && !back {
            return Some(());
        }
    }
    None
}

/// Plays an end alone over a new journal. It hears these bytes.
pub fn alone<D: Decider>(alloc: Global, role: Role, decider: D, heard: &[u8]) -> Option<Side<D>> {
    let mut side = begin(alloc, role, decider)?;
    feed(&mut side, heard)?;
    match side.end.run(&mut side.station) {
        Ok(_) => Some(side),
        Err(_) => None,
    }
}
