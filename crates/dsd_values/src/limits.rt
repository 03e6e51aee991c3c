//! The limits on deliveries and texts. All of them are this project's profile.

/// The most lines of a delivery.
pub const MOST_LINES: usize = 999;

/// The most allowances of a line, and the most at record level.
pub const MOST_ALLOWANCES: usize = 20;

/// The highest level of a proposal. The base record has level 0.
pub const HIGHEST_LEVEL: u8 = 9;

/// The most bytes of a set.
pub const SET_BYTES: usize = 262_144;

/// The most bytes of a text that is kept as it came.
pub const KEPT_BYTES: usize = 512;

/// The most bytes of a word.
pub const WORD_BYTES: usize = 35;

/// The most bytes of the mark of a signature.
pub const MARK_BYTES: usize = 12;
