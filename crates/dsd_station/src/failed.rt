/// A call to the outside failed. The count of faults tells it too.
#[derive(Clone, Copy, Debug, PartialEq, Eq)]
pub struct Failed;
