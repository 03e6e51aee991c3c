//! An entry more, before it stands among the others.

ghost use Rattle.std.specs.Prelude.{◌≡◌, IfOk};
ghost use Rattle.std.specs.Option.{option_copied};
ghost use Rattle.delivery_book.specs.Deeds.{number_in};
ghost use Rattle.delivery_book.specs.Index.{IsMade, accepts as set_accepts, stand_after};
ghost use Rattle.delivery_book.specs.Takings.{IsAdded};

use crate::delivery::Delivery;
use dsd_journal::{Entry, EntryKind};
use dsd_record::{DsdRecord, SetView};
use dsd_values::{DeliveryNumber, Memory, SetText};
use std::alloc::Global;

/// An entry, with its delivery and how that stands behind it.
#[derive(Drop)]
pub(crate) struct Change {
    pub(crate) entry: Entry,
    pub(crate) number: DeliveryNumber,
    pub(crate) delivery: Delivery,
}

impl Change {
    /// The entry at this place, whose set makes this version of its delivery, or accepts it.
    pub(crate) fn new(
        alloc: Global,
        entry: Entry,
        place: usize,
        number: &DeliveryNumber,
        known: Option<&Delivery>,
        accepts: bool,
        seen: DsdRecord,
    ) -> Result<Change, Memory>
        ensures { IfOk result (λ change. change ≡ record { entry = entry; number = number.now; delivery = stand_after entry.kind place accepts seen (option_copied known.entry) }) }
    {
        let delivery = Delivery::behind(alloc, known, entry.kind, place, accepts, seen)?;
        Ok(Change {
            entry,
            number: number.copy(),
            delivery,
        })
    }
}

/// What a text adds at this place that is this set, which makes this version of its delivery, or accepts it.
pub(crate) fn added(
    alloc: Global,
    kind: EntryKind,
    text: &[u8],
    place: usize,
    known: Option<&Delivery>,
    set: &SetView,
    seen: DsdRecord,
) -> Result<Change, Memory>
    requires { IsMade (option_copied known) set.now seen }
    ensures { IfOk result (IsAdded place (option_copied known.entry) (record { kind = kind; payload = text.now }) set.now) }
{
    let payload = SetText::from_bytes(Vec::from_slice(alloc, text)?);
    let entry = Entry { kind, payload };
    Change::new(
        alloc,
        entry,
        place,
        number_of(set),
        known,
        accepts(set),
        seen,
    )
}

/// The number of a set's delivery.
pub(crate) fn number_of(set: &SetView) -> &DeliveryNumber
    ensures { result.now ≡ number_in set.now }
{
    match set {
        SetView::Base(base, _seal) => base.number(),
        SetView::Answer(answer, _seal) => answer.number(),
    }
}

/// Whether a set is an acceptance.
fn accepts(set: &SetView) -> bool
    ensures { result ≡ set_accepts set.now }
{
    match set {
        SetView::Base(_base, _seal) => false,
        SetView::Answer(answer, _seal) => answer.is_acknowledgement(),
    }
}
