//! A set, lent from the text of its transmission.

ghost use Rattle.std.specs.Prelude.{◌≡◌, ◌+◌, ◌<◌, ◌≤◌, ◌^◌, length};

use std::marker::Model;

/// A set of a transmission, lent from its text: the bytes from an ST segment through the next SE segment.
#[derive(Drop)]
pub struct SetSlice<'a> {
    start: usize,
    bytes: &'a [u8],
}

impl<'a> Model for SetSlice<'a> {
    ghost use Rattle.std.specs.Prelude.{◌+◌, ◌<◌, ◌^◌, length};
    ghost use Rattle.dxs_envelope.specs.Views.{SetAt};

    ghost Value = { SetAt };

    ghost view = { λ s. record { start = s.start; bytes = s.bytes.now } };

    ghost invariant = { λ s. s.start + length s.bytes.now < 2 ^ 64 };
}

impl<'a> SetSlice<'a> {
    /// The set of these bytes, which stand at this place.
    pub(crate) fn new(start: usize, bytes: &'a [u8]) -> SetSlice<'a>
        requires { start + length bytes.now < 2 ^ 64 }
        ensures { result ≡ record { start = start; bytes = bytes.now } }
    {
        SetSlice { start, bytes }
    }

    /// The place in the text at which it starts.
    pub fn start(&self) -> usize
        ensures { result ≡ self.now.start }
    {
        self.start
    }

    /// The place in the text behind its last byte.
    pub fn end(&self) -> usize
        ensures { result ≡ self.now.start + length self.now.bytes }
    {
        self.start + self.bytes.len()
    }

    /// The place in the text of a place in it.
    pub fn place_in_text(&self, place: usize) -> usize
        requires { place ≤ length self.now.bytes }
        ensures { result ≡ self.now.start + place }
    {
        self.start + place
    }

    /// Its bytes.
    pub fn bytes(&self) -> &'a [u8]
        ensures { result.now ≡ self.now.bytes }
    {
        self.bytes
    }
}
