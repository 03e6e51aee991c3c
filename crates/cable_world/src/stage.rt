//! How far a world has come.

/// How far a world has come.
#[derive(Clone, Copy, Debug, PartialEq, Eq)]
pub enum Stage {
    /// It has played nothing.
    New,
    /// All events were played.
    Played,
    /// And its report was made.
    Finished,
    /// Memory ran out: it may only be dropped.
    Broken,
}
