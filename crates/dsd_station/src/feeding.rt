use crate::handed::Handed;

/// What the port is to give: bytes, so many times nothing, or that the cable is unplugged.
#[derive(Drop)]
pub enum Given {
    Bytes(Handed),
    Quiet(u32),
    Unplugged,
}

/// What one call fed, and the length of the record at that moment.
#[derive(Drop)]
pub struct Fed {
    pub given: Given,
    pub at: u64,
}
