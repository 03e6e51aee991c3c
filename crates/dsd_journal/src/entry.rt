//! What a journal keeps.

use dsd_values::SetText;

/// What an end did with the set of an entry.
#[derive(Clone, Copy, Debug, PartialEq, Eq)]
pub enum EntryKind {
    /// It signed it: `S`.
    Signed,
    /// It took it from its peer: `T`.
    Took,
}

/// An entry of a journal: what was done, and the set's text of 1 to 262,144 bytes.
#[derive(Debug, Drop)]
pub struct Entry {
    pub kind: EntryKind,
    pub payload: SetText,
}
