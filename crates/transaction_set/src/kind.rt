//! What a segment is, by its id.

ghost use Rattle.std.specs.Prelude.{◌≡◌};
ghost use Rattle.transaction_set.specs.Kinds.{is_start_of as starts_set, kind_of, set_code as code_of, head_id as head_of, reference_id as reference_of, item_id as item_of};

use segments::{Segment, has_id};

/// Which of the two sets.
#[derive(Clone, Copy, Debug, PartialEq, Eq)]
pub enum Form {
    /// The base record of a delivery, set 894.
    Base,
    /// Its acknowledgement or adjustment, set 895.
    Answer,
}

/// What a segment is in its set.
#[derive(Clone, Copy, Debug, PartialEq, Eq)]
pub enum Kind {
    /// ST of this set.
    Start,
    /// G82 of a base record, G87 of an answer.
    Head,
    /// N9 of a base record, G88 of an answer.
    Reference,
    /// LS.
    LoopStart,
    /// G83 of a base record, G89 of an answer.
    Item,
    /// G72.
    Allowance,
    /// G22, which stands behind an item alone.
    LineNote,
    /// G23.
    Note,
    /// LE.
    LoopEnd,
    /// G84.
    Totals,
    /// G86.
    Signature,
    /// G85.
    Integrity,
    /// SE.
    Trailer,
    /// Every other segment.
    Other,
}

impl Kind {
    /// What this segment is in a set of this form.
    #[inline(always)]
    #[tactic(auto, unfolding(crate::specs::Kinds::kind_of))]
    pub fn of(form: Form, segment: &Segment<'_>) -> Kind
        ensures { result ≡ kind_of form segment.now }
    {
        if is_start_of(form, segment) {
            Kind::Start
        } else if has_id(segment, head_id(form)) {
            Kind::Head
        } else if has_id(segment, reference_id(form)) {
            Kind::Reference
        } else if has_id(segment, b"LS") {
            Kind::LoopStart
        } else if has_id(segment, item_id(form)) {
            Kind::Item
        } else if has_id(segment, b"G72") {
            Kind::Allowance
        } else if has_id(segment, b"G22") {
            Kind::LineNote
        } else if has_id(segment, b"G23") {
            Kind::Note
        } else if has_id(segment, b"LE") {
            Kind::LoopEnd
        } else if has_id(segment, b"G84") {
            Kind::Totals
        } else if has_id(segment, b"G86") {
            Kind::Signature
        } else if has_id(segment, b"G85") {
            Kind::Integrity
        } else if has_id(segment, b"SE") {
            Kind::Trailer
        } else {
            Kind::Other
        }
    }
}

/// Whether the segment is the ST of a set of this form.
pub fn is_start_of(form: Form, segment: &Segment<'_>) -> bool
    ensures { result ≡ starts_set form segment.now }
{
    has_id(segment, b"ST") && segment.element(1) == set_code(form)
}

/// The number of the set.
pub fn set_code(form: Form) -> &'static [u8]
    ensures { result.now ≡ code_of form }
{
    match form {
        Form::Base => b"894",
        Form::Answer => b"895",
    }
}

/// The id of the head.
pub fn head_id(form: Form) -> &'static [u8]
    ensures { result.now ≡ head_of form }
{
    match form {
        Form::Base => b"G82",
        Form::Answer => b"G87",
    }
}

fn reference_id(form: Form) -> &'static [u8]
    ensures { result.now ≡ reference_of form }
{
    match form {
        Form::Base => b"N9",
        Form::Answer => b"G88",
    }
}

/// The id of an item.
pub fn item_id(form: Form) -> &'static [u8]
    ensures { result.now ≡ item_of form }
{
    match form {
        Form::Base => b"G83",
        Form::Answer => b"G89",
    }
}
