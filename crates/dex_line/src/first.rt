//! The first frame of captured bytes.

ghost use Rattle.std.specs.Prelude.{◌≡◌, ◌≤◌, [], length, MatchOption};
ghost use Rattle.dex_line.specs.Captured.{IsFrameOfSize};
ghost use Rattle.dex_line.specs.FirstFrame.{first_closed, first_of, first_opened, sized_seen, some_sized};
ghost use Rattle.dex_line.specs.FrameShapes.{captured_seen};
ghost use Rattle.dex_line.specs.Judging.{checked, closed};

use super::bytes::{DLE, ENQ, EOT, ETX, NAK, SOH, STX, text_length};
use super::frame::{BLOCK_READ, Opened};
use super::lent::Captured;
use super::spelling::closed_check;

/// The first frame of the bytes, and how many of them it takes.
pub(crate) fn first_frame<'a>(bytes: &'a [u8]) -> Option<(Captured<'a>, usize)>
    ensures { MatchOption result (bytes.now ≡ []) (λ x. IsFrameOfSize (captured_seen x.0) bytes.now x.1) }
{
    read_first(bytes)
}

/// The same, as it is read from the left.
fn read_first<'a>(bytes: &'a [u8]) -> Option<(Captured<'a>, usize)>
    ensures { some_sized result ≡ first_of bytes.now }
{
    match bytes {
        [] => None,
        [ENQ, ..] => Some((Captured::Enq, 1)),
        [NAK, ..] => Some((Captured::Nak, 1)),
        [EOT, ..] => Some((Captured::Eot, 1)),
        [DLE, b'0', ..] => Some((Captured::Ack0, 2)),
        [DLE, b'1', ..] => Some((Captured::Ack1, 2)),
        [DLE, SOH, rest @ ..] => Some(read_opened(Opened::Header, rest)),
        [DLE, STX, rest @ ..] => Some(read_opened(Opened::Block, rest)),
        _ => Some((Captured::Bad, 1)),
    }
}

/// A header or block behind what opens it.
fn read_opened<'a>(opened: Opened, rest: &'a [u8]) -> (Captured<'a>, usize)
    ensures { sized_seen result ≡ first_opened opened rest.now }
{
    let size = text_length(rest);
    if size == 0 || size > opened.limit() {
        return (Captured::Bad, 1);
    }
    let (text, behind) = rest.split_at(size);
    read_closed(opened, text, behind)
}

/// The same behind its text.
fn read_closed<'a>(opened: Opened, text: &'a [u8], behind: &[u8]) -> (Captured<'a>, usize)
    requires { length text.now ≤ BLOCK_READ }
    ensures { sized_seen result ≡ first_closed opened text.now behind.now }
{
    match behind {
        [DLE, closing, low, high, ..] if opened.is_closed_by(*closing) => (
            read_checked(opened, text, *closing, *low, *high),
            text.len() + 6,
        ),
        _ => (Captured::Bad, 1),
    }
}

/// A header or block by its check.
fn read_checked<'a>(opened: Opened, text: &'a [u8], closing: u8, low: u8, high: u8) -> Captured<'a>
    ensures { captured_seen result ≡ checked opened text.now closing low high }
{
    let check = closed_check(text, closing);
    if low == (check & 0xFF) as u8 && high == (check >> 8) as u8 {
        return whole(opened, closing, text);
    }
    Captured::Damaged
}

/// A header or block whose check was the right one.
fn whole<'a>(opened: Opened, closing: u8, text: &'a [u8]) -> Captured<'a>
    ensures { captured_seen result ≡ closed opened text.now closing }
{
    match opened {
        Opened::Header => Captured::Header(text),
        Opened::Block => Captured::Block {
            last: closing == ETX,
            text,
        },
    }
}
