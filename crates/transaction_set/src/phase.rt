//! The order of the segments of a set.

ghost use Rattle.std.specs.Prelude.{◌≡◌};
ghost use Rattle.transaction_set.specs.Kinds.{next_phase, is_done as done_at};
ghost use Rattle.transaction_set.specs.SoFar.{in_line as behind_item};

use crate::kind::{Form, Kind};

/// What has been read of a set: what may come next.
#[derive(Clone, Copy, Debug, PartialEq, Eq)]
pub enum Phase {
    /// ST.
    Start,
    /// The head.
    Head,
    /// A reference, or what may follow the references.
    References,
    /// A loop, or what may follow it.
    Body,
    /// The first item of a loop.
    FirstItem,
    /// What belongs to the last item, another item, or the end of the loop.
    Items,
    /// An allowance or a note of the record, or the totals.
    Extras,
    /// The signature.
    Signature,
    /// The integrity value.
    Integrity,
    /// SE.
    Trailer,
    /// Nothing: the set is whole.
    Done,
}

impl Phase {
    /// What may come behind such a segment, where it may stand here.
    pub fn after(self, kind: Kind, form: Form) -> Option<Phase>
        ensures { result ≡ next_phase self kind form }
    {
        match (self, kind, form) {
            (Phase::Start, Kind::Start, _) => Some(Phase::Head),
            (Phase::Head, Kind::Head, _) => Some(Phase::References),
            (Phase::References, Kind::Reference, Form::Base) => Some(Phase::References),
            (Phase::References, Kind::Reference, Form::Answer) => Some(Phase::Body),
            (Phase::References | Phase::Body, Kind::LoopStart, _) => Some(Phase::FirstItem),
            (Phase::References | Phase::Body, Kind::Totals, _) => Some(Phase::Signature),
            (
                Phase::References | Phase::Body | Phase::Extras,
                Kind::Allowance | Kind::Note,
                Form::Base,
            ) => Some(Phase::Extras),
            (Phase::FirstItem | Phase::Items, Kind::Item, _) => Some(Phase::Items),
            (Phase::Items, Kind::Allowance | Kind::LineNote | Kind::Note, _) => Some(Phase::Items),
            (Phase::Items, Kind::LoopEnd, _) => Some(Phase::Extras),
            (Phase::Extras, Kind::Totals, _) => Some(Phase::Signature),
            (Phase::Signature, Kind::Signature, _) => Some(Phase::Integrity),
            (Phase::Integrity, Kind::Integrity, _) => Some(Phase::Trailer),
            (Phase::Trailer, Kind::Trailer, _) => Some(Phase::Done),
            _ => None,
        }
    }

    /// Whether the set is whole.
    pub fn is_done(self) -> bool
        ensures { result ≡ done_at self }
    {
        matches!(self, Phase::Done)
    }

    /// Whether an item was read, and what belongs to it may come.
    pub fn in_line(self) -> bool
        ensures { result ≡ behind_item self }
    {
        matches!(self, Phase::Items)
    }
}
