//! The units of a text, which a block takes whole: where their ends are, looked for from the back.

ghost use Rattle.std.specs.Prelude.{◌≡◌, length};
ghost use Rattle.dex_line.specs.BlockCut.{Fills};
ghost use Rattle.dex_line.specs.TextUnits.{is_set_end, is_trailer, EndsLines, IsLastLine, IsWholeLines};

use super::bytes::is_id_end;

/// How many bytes of whole units the room takes.
///
/// The text that fills the room is looked at from its back: up to the end of its last line, and one line further where
/// that end may part a G85 from its SE.
#[tactic(auto, using(crate::proofs::Filling::fills_all))]
pub(crate) fn filled(text: &[u8], room: usize) -> usize
    ensures { Fills text.now room result }
{
    if text.len() <= room {
        return text.len();
    }
    let size = lines_len(&text[..room]);
    if !begins_set_end(&text[size..]) {
        return size;
    }
    let line = last_line(&text[..size]);
    if is_trailer_line(line) {
        size - line.len()
    } else {
        size
    }
}

/// How many bytes whole lines at the front have: those up to the last LF.
fn lines_len(bytes: &[u8]) -> usize
    ensures { EndsLines bytes.now result }
{
    let mut size = bytes.len();
    while size > 0 && bytes[size - 1] != b'\n' {
        size -= 1;
    }
    size
}

/// The last of some lines, or nothing of none.
fn last_line(lines: &[u8]) -> &[u8]
    requires whole { IsWholeLines lines.now }
    ensures { IsLastLine lines.now result.now }
{
    let Some((_feed, front)) = lines.split_last() else {
        return lines;
    };
    &lines[lines_len(front)..]
}

/// Whether a segment is a G85.
fn is_trailer_line(line: &[u8]) -> bool
    ensures { result ≡ is_trailer line.now }
{
    match line {
        [b'G', b'8', b'5', behind, ..] => is_id_end(*behind),
        _ => false,
    }
}

/// Whether a text begins with an SE.
fn begins_set_end(text: &[u8]) -> bool
    ensures { result ≡ is_set_end text.now }
{
    match text {
        [b'S', b'E', behind, ..] => is_id_end(*behind),
        _ => false,
    }
}
