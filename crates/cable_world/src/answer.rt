//! What the ends of a world answer.

use dex_handshake::SessionEnd;
use dsd_end::EndFault;
use dsd_journal::OpenFault;

/// What one opening or one poll of an end answered.
#[derive(Clone, Copy, Debug, PartialEq, Eq)]
pub enum Answer {
    /// An opening went well.
    Opened,
    /// An opening did not.
    NotOpened(OpenFault),
    /// A poll went well, and the session goes on.
    Running,
    /// A poll went well, and the session has ended so.
    Ended(SessionEnd),
    /// A poll did not.
    Broken(EndFault),
}
