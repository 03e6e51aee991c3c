//! The bytes of a frame.

ghost use Rattle.std.specs.Prelude.{◌≡◌, ◌≤◌, ◌∷◌, ◌++◌, [], length};
ghost use Rattle.block_check.specs.Crc16.{crc_of};
ghost use Rattle.dex_line.specs.Bytes.{dle};
ghost use Rattle.dex_line.specs.FrameShapes.{frame_seen};
ghost use Rattle.dex_line.specs.FrameSpelling.{guarded, opening, spelling, IsSpoken};
ghost use Rattle.dex_line.specs.declared.frame.TheConstants.{BLOCK_READ};

use super::bytes::{DLE, ENQ, EOT, ETB, ETX, NAK, SOH, STX};
use super::frame::{Frame, Opened};
use arrayvec::ArrayVec;
use block_check::Running;

/// The room for the bytes of a frame.
pub const FRAME_BYTES: usize = 600;

/// The bytes of a frame that can be said, check and all.
pub fn spell(frame: &Frame) -> ArrayVec<u8, FRAME_BYTES>
    requires { IsSpoken (frame_seen frame.now) }
    ensures { result.items ≡ spelling (frame_seen frame.now) }
{
    match frame {
        Frame::Enq => one(ENQ),
        Frame::Eot => one(EOT),
        Frame::Nak => one(NAK),
        Frame::Ack0 => marked(b'0'),
        Frame::Ack1 => marked(b'1'),
        Frame::Header(text) => guard(Opened::Header, text.as_slice(), ETX),
        Frame::Block { last: true, text } => guard(Opened::Block, text.as_slice(), ETX),
        Frame::Block { last: false, text } => guard(Opened::Block, text.as_slice(), ETB),
        Frame::Damaged | Frame::Bad => unreachable!(),
    }
}

/// One byte.
fn one(byte: u8) -> ArrayVec<u8, FRAME_BYTES>
    ensures { result.items ≡ byte ∷ [] }
{
    let mut bytes = ArrayVec::new();
    bytes.push(byte);
    bytes
}

/// A byte behind a DLE.
fn marked(byte: u8) -> ArrayVec<u8, FRAME_BYTES>
    ensures { result.items ≡ dle ∷ byte ∷ [] }
{
    let mut bytes = one(DLE);
    bytes.push(byte);
    bytes
}

/// A text between its marks, and its check.
fn guard(opened: Opened, text: &[u8], closing: u8) -> ArrayVec<u8, FRAME_BYTES>
    requires { length text.now ≤ BLOCK_READ }
    ensures { result.items ≡ guarded opened text.now closing }
{
    let check = closed_check(text, closing);
    let mut bytes = marked(opening_byte(opened));
    let _ = bytes.try_extend_from_slice(text);
    bytes.push(DLE);
    bytes.push(closing);
    bytes.push((check & 0xFF) as u8);
    bytes.push((check >> 8) as u8);
    bytes
}

/// The check of a text and the byte that closes it.
pub(crate) fn closed_check(text: &[u8], closing: u8) -> u16
    ensures { result ≡ crc_of (text.now ++ closing ∷ []) }
{
    let mut check = Running::new();
    check.take_all(text);
    check.take(closing);
    check.value()
}

/// The byte behind the DLE that opens it.
fn opening_byte(opened: Opened) -> u8
    ensures { result ≡ opening opened }
{
    match opened {
        Opened::Header => SOH,
        Opened::Block => STX,
    }
}
