//! What an end asked of its station.

use dsd_station::Call;
use dsd_values::Role;
use std::io;

/// What an end asked of its station in a session, its opening too.
#[derive(Clone, Copy)]
pub struct Figures {
    pub polls: u64,
    /// Its own turns behind the header's: each begins with an enquiry, and where nothing is lost no enquiry is said twice.
    pub turns: u64,
    pub syncs: u64,
    /// The calls of `write_at`, `sync` and `speak`.
    pub calls: u64,
    /// The bytes gone out.
    pub bytes: u64,
}

/// What these calls of an end of this role were. A supplier's first poll listens to nothing.
pub fn counted(role: Role, calls: &[Call]) -> Figures {
    let (mut polls, mut writes, mut syncs) = (0u64, 0u64, 0u64);
    let (mut said, mut enquiries, mut bytes) = (0u64, 0u64, 0u64);
    for call in calls {
        match call {
            Call::Listen { .. } => polls = polls.saturating_add(1),
            Call::Write { .. } => writes = writes.saturating_add(1),
            Call::Sync { .. } => syncs = syncs.saturating_add(1),
            Call::Speak { bytes: frame, .. } => {
                said = said.saturating_add(1);
                bytes = bytes.saturating_add(frame.as_slice().len() as u64);
                if let [0x05] = frame.as_slice() {
                    enquiries = enquiries.saturating_add(1);
                }
            }
            _ => {}
        }
    }
    Figures {
        polls: polls.saturating_add(u64::from(matches!(role, Role::Supplier))),
        turns: enquiries.saturating_sub(1),
        syncs,
        calls: writes.saturating_add(syncs).saturating_add(said),
        bytes,
    }
}

/// Prints them.
pub fn print_figures(rt: &impl Print, name: &str, told: Figures) -> io::Result<()> {
    println!(rt;
        "{name}: {} polls, {} own turns, {} syncs, {} device calls, {} bytes",
        told.polls, told.turns, told.syncs, told.calls, told.bytes
    )
}
