use crate::call::Pick;

/// A failure at a counted call: its number from the arming on, the next call being 1, and the length of the
/// record at that moment.
#[derive(Clone, Copy, Debug, PartialEq, Eq)]
pub struct ArmedFail {
    pub number: u64,
    pub at: u64,
}

/// A stop inside a counted call, and what it leaves.
#[derive(Clone, Copy, Debug, PartialEq, Eq)]
pub struct ArmedStop {
    pub number: u64,
    pub pick: Pick,
    pub at: u64,
}
