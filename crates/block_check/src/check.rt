//! The check of a whole text.

ghost use Rattle.std.specs.Prelude.{◌≡◌, ◌+◌, ◌*◌, ◌<◌};
ghost use Rattle.std.specs.List.{fold};
ghost use Rattle.block_check.specs.Crc16.{crc_bits, crc_from, crc_of, crc_step};

use super::tables::REMAINDERS;

/// The CRC-16 of the bytes: polynomial x^16 + x^15 + x^2 + 1, the lowest bit of each byte first, start value 0.
///
/// On a cable the low byte of the check is spoken first.
pub fn check_of(bytes: &[u8]) -> u16
    ensures { result ≡ crc_of bytes.now }
{
    check_from(0, bytes)
}

/// The check after further bytes, where `start` is the check of those before them.
pub(crate) fn check_from(start: u16, bytes: &[u8]) -> u16
    ensures { result ≡ crc_from start bytes.now }
{
    let (eights, rest) = bytes.as_chunks::<8>();
    let check = check_after_eights(start, eights);
    check_after_each(check, rest)
}

/// The check after further bytes, eight at a step.
fn check_after_eights(start: u16, eights: &[[u8; 8]]) -> u16
    ensures { result ≡ fold crc_from start eights.now }
{
    eights
        .iter()
        .fold(start, |check, eight| check_after_eight(check, eight))
}

/// The check after further bytes, one at a step.
fn check_after_each(start: u16, bytes: &[u8]) -> u16
    ensures { result ≡ crc_from start bytes.now }
{
    bytes
        .iter()
        .fold(start, |check, byte| check_after(check, *byte))
}

/// The check after eight bytes more. The check so far is two bytes long, so it is combined into the first two of them.
fn check_after_eight(check: u16, bytes: &[u8; 8]) -> u16
    ensures { result ≡ crc_from check bytes.now }
{
    let [a, b, c, d, e, f, g, h] = *bytes;
    let low = (check & 0xff) as u8;
    let high = (check >> 8) as u8;
    remainder(low ^ a, 7)
        ^ remainder(high ^ b, 6)
        ^ remainder(c, 5)
        ^ remainder(d, 4)
        ^ remainder(e, 3)
        ^ remainder(f, 2)
        ^ remainder(g, 1)
        ^ remainder(h, 0)
}

/// The check after one byte more.
pub(crate) fn check_after(check: u16, byte: u8) -> u16
    ensures { result ≡ crc_step check byte }
{
    let low = (check & 0xff) as u8;
    (check >> 8) ^ remainder(low ^ byte, 0)
}

/// What a byte leaves where so many bytes stand behind it, fewer than eight.
fn remainder(byte: u8, behind: usize) -> u16
    requires { behind < 8 }
    ensures { result ≡ crc_bits (8 * (behind + 1)) byte }
{
    REMAINDERS[behind][byte as usize]
}
