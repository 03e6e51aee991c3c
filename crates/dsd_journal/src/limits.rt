//! Limits of a journal.

/// The most bytes of a journal: the closed gate behind its entries stands below this place.
pub const JOURNAL_BYTES: u64 = 67_108_864;

/// The most entries of a journal: each takes at least 7 bytes behind the header.
pub const MOST_ENTRIES: usize = 9_586_976;

/// How many bytes a header has.
pub const HEADER_BYTES: usize = 27;

/// How many bytes a journal without entries has: its header and a closed gate.
pub const FORMATTED_BYTES: usize = HEADER_BYTES + 1;

/// A gate that is open. Any other byte is a closed one.
pub(crate) const OPEN_GATE: u8 = 0xa5;
