//! What was taken of a turn of the other end.

ghost use Rattle.std.specs.Prelude.{◌≡◌, ◌≤◌, ◌+◌, ◌<◌, false};
ghost use Rattle.dex_handshake.specs.LineTable.{reply_of};
ghost use Rattle.dex_line.specs.FrameShapes.{frame_seen};

use dex_line::Frame;
use dxs_envelope::TRANSMISSION_BYTES;
use std::marker::Model;

/// Whether a header was heard.
#[derive(Debug, Clone, Copy)]
pub struct HeaderTaking {
    pub(crate) heard: bool,
}

/// How many bytes and blocks of a text were taken, and whether one was marked last.
#[derive(Debug, Drop)]
pub struct TextTaking {
    size: usize,
    taken: u32,
    whole: bool,
}

impl Model for TextTaking {
    ghost use Rattle.std.specs.Prelude.{◌≤◌};
    ghost use Rattle.dxs_envelope.specs.declared.outgoing.TheConstants.{TRANSMISSION_BYTES};
    ghost use Rattle.dex_handshake.specs.StateSeen.{TextTaken};

    ghost Value = { TextTaken };

    ghost view = { λ t. record { size = t.size; taken = t.taken; whole = t.whole } };

    // Each block has some byte.
    ghost invariant = { λ t. (t.size ≤ TRANSMISSION_BYTES) × (t.taken ≤ t.size) };
}

impl TextTaking {
    pub(crate) fn nothing() -> TextTaking
        ensures { result ≡ record { size = 0; taken = 0; whole = false } }
    {
        TextTaking {
            size: 0,
            taken: 0,
            whole: false,
        }
    }

    pub(crate) fn size(&self) -> usize
        ensures value { result ≡ self.now.size }
        ensures short { result ≤ TRANSMISSION_BYTES }
    {
        self.size
    }

    pub(crate) fn is_whole(&self) -> bool
        ensures { result ≡ self.now.whole }
    {
        self.whole
    }

    pub(crate) fn taken(&self) -> u32
        ensures value { result ≡ self.now.taken }
        ensures short { result ≤ TRANSMISSION_BYTES }
    {
        self.taken
    }

    /// With a block more of so many bytes.
    pub(crate) fn more(self, bytes: usize, last: bool) -> TextTaking
        requires some { 0 < bytes }
        requires short { self.size + bytes ≤ TRANSMISSION_BYTES }
        ensures { result ≡ record { size = self.size + bytes; taken = self.taken + 1; whole = last } }
    {
        TextTaking {
            size: self.size + bytes,
            taken: self.taken + 1,
            whole: last,
        }
    }
}

/// The reply of a frame by its number, and of the Enq before the first one.
pub(crate) fn reply_to(number: u32) -> Frame
    ensures { frame_seen result ≡ reply_of number }
{
    if number % 2 == 1 {
        Frame::Ack1
    } else {
        Frame::Ack0
    }
}
