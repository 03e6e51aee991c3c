//! Texts cut at their spaces, word after word.

ghost use Rattle.std.specs.Prelude.{◌≡◌, ◌<◌, ◌≤◌, ◌+◌, [], drop, length, position};
ghost use Rattle.std.specs.List.{position_or_len, slice_index_or};
ghost use Rattle.plain_lines.specs.PlainText.{are_so_many, is_space, words_of};

/// How many bytes stand in front of the first space.
#[tactic(auto, using(crate::proofs::Cutting::size_is, crate::proofs::Cutting::size_within))]
fn first_size(text: &[u8]) -> usize
    ensures first { result ≡ position_or_len is_space text.now }
    ensures within { result ≤ length text.now }
{
    first_place(text).unwrap_or(text.len())
}

fn first_place(text: &[u8]) -> Option<usize>
    ensures { result ≡ position is_space text.now }
{
    text.iter().position(|&byte| byte == b' ')
}

/// The piece of a text between its spaces with this number.
#[tactic(auto, using(crate::proofs::Cutting::piece_first, crate::proofs::Cutting::piece_more, crate::proofs::Cutting::piece_alone, crate::proofs::Cutting::piece_past))]
pub(crate) fn piece(text: &[u8], number: usize) -> &[u8]
    ensures { result.now ≡ slice_index_or (words_of text.now) number [] }
{
    let size = first_size(text);
    if size == text.len() {
        if number == 0 { text } else { &[] }
    } else if number == 0 {
        &text[..size]
    } else {
        piece(behind(text, size), number - 1)
    }
}

/// Whether a text has so many pieces between its spaces, none of them empty.
#[tactic(auto, using(crate::proofs::Cutting::none_at_zero, crate::proofs::Cutting::none_of_zero, crate::proofs::Cutting::one_word, crate::proofs::Cutting::more_words))]
pub(crate) fn are_words(text: &[u8], count: usize) -> bool
    ensures { result ≡ are_so_many count (words_of text.now) }
{
    let size = first_size(text);
    if size == 0 {
        false
    } else if size == text.len() {
        count == 1
    } else {
        count > 0 && are_words(behind(text, size), count - 1)
    }
}

/// What stands behind the byte at this place.
fn behind(text: &[u8], place: usize) -> &[u8]
    requires { place < length text.now }
    ensures { result.now ≡ drop (place + 1) text.now }
{
    &text[place + 1..]
}
