//! The headers of the two handshakes: what one says, and how it is written.

ghost use Rattle.std.specs.Prelude.{◌≡◌, ◌++◌, codes, false, if◌then◌else◌};
ghost use Rattle.dex_line.specs.FrameShapes.{Header as HeaderFrame};
ghost use Rattle.dex_handshake.specs.LineTable.{read_first, read_second};
ghost use Rattle.dex_handshake.specs.StateSeen.{once, partner_seen};

use super::load::HeaderLoad;
use arrayvec::ArrayVec;
use dsd_values::{COMM_ID_BYTES, CommId, read_comm_id};

/// What a header says of the end that it comes from. A first header has no code, and stands for the code 0.
#[derive(Clone, Copy, Debug, PartialEq, Eq)]
pub struct Partner {
    pub(crate) code: u8,
    pub(crate) id: CommId,
}

/// The supplier's header, to be sent once.
pub(crate) fn first_header(own: CommId) -> HeaderLoad
    ensures { result ≡ once (HeaderFrame (own ++ codes "SR01L01")) false }
{
    let mut text = ArrayVec::new();
    let _ = text.try_extend_from_slice(&own.get());
    let _ = text.try_extend_from_slice(b"SR01L01");
    HeaderLoad::new(text)
}

/// The receiver's header, to be sent once: ready, or not the expected partner.
pub(crate) fn second_header(ready: bool, own: CommId) -> HeaderLoad
    ensures { result ≡ once (HeaderFrame ((if ready then codes "00" else codes "01") ++ own ++ codes "R01L01")) false }
{
    let mut text = ArrayVec::new();
    let code = if ready { b"00" } else { b"01" };
    let _ = text.try_extend_from_slice(code);
    let _ = text.try_extend_from_slice(&own.get());
    let _ = text.try_extend_from_slice(b"R01L01");
    HeaderLoad::new(text)
}

/// What a first header says: ten characters of an id, a letter, and six characters.
pub(crate) fn read_first_header(text: &[u8]) -> Option<Partner>
    ensures { partner_seen result ≡ read_first text.now }
{
    if text.len() != 17 || !text[COMM_ID_BYTES].is_ascii_alphabetic() {
        return None;
    }
    match read_comm_id(&text[..COMM_ID_BYTES]) {
        Ok(id) => Some(Partner { code: 0, id }),
        Err(_) => None,
    }
}

/// What a second header says: two digits, ten characters of an id, and six characters.
pub(crate) fn read_second_header(text: &[u8]) -> Option<Partner>
    ensures { partner_seen result ≡ read_second text.now }
{
    if text.len() != 18 || !text[0].is_ascii_digit() || !text[1].is_ascii_digit() {
        return None;
    }
    let code = (text[0] - b'0') * 10 + (text[1] - b'0');
    match read_comm_id(&text[2..2 + COMM_ID_BYTES]) {
        Ok(id) => Some(Partner { code, id }),
        Err(_) => None,
    }
}
