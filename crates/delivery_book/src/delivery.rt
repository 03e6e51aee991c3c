//! How a delivery stands.

ghost use Rattle.std.specs.Prelude.{◌≡◌, ◌&&◌, IfOk, Some, not};
ghost use Rattle.std.specs.Option.{option_copied};
ghost use Rattle.delivery_book.specs.Deeds.{is_signed as is_signed_kind};
ghost use Rattle.delivery_book.specs.Index.{final_by_stand, history_after as sets_after, history_of, ours_of, stand_after};

use crate::history::History;
use dsd_journal::EntryKind;
use dsd_record::DsdRecord;
use dsd_values::{DeliveryNumber, Memory};
use indexmap::IndexMap;
use std::alloc::Global;
use std::marker::Model;

/// The deliveries under their numbers, in the order of their first entries.
pub(crate) type Deliveries = IndexMap<DeliveryNumber, Delivery>;

/// What is kept of a delivery beside the entries.
#[derive(Drop)]
pub(crate) struct Delivery {
    /// The version that the highest proposal makes.
    seen: DsdRecord,
    /// Whether this end signed that proposal.
    ours: bool,
    /// Whether it is accepted.
    accepted: bool,
    history: History,
}

impl Model for Delivery {
    ghost use Rattle.delivery_book.specs.Index.{Stand};

    ghost Value = { Stand };

    ghost view = { λ d. record { seen = d.seen; ours = d.ours; accepted = d.accepted; history = d.history } };
}

impl Delivery {
    pub(crate) fn seen(&self) -> &DsdRecord
        ensures { result.now ≡ self.now.seen }
    {
        &self.seen
    }

    pub(crate) fn is_ours(&self) -> bool
        ensures { result ≡ self.now.ours }
    {
        self.ours
    }

    pub(crate) fn is_accepted(&self) -> bool
        ensures { result ≡ self.now.accepted }
    {
        self.accepted
    }

    pub(crate) fn history(&self) -> &History
        ensures { result.now ≡ self.now.history }
    {
        &self.history
    }

    /// Whether the other end's proposal is the highest, and is not accepted.
    pub(crate) fn awaits_us(&self) -> bool
        ensures { result ≡ (not self.now.ours && not self.now.accepted) }
    {
        !self.ours && !self.accepted
    }

    /// The version of the highest proposal, where it is accepted.
    pub(crate) fn accepted_version(&self) -> Option<&DsdRecord>
        ensures { option_copied result ≡ final_by_stand (Some self.now) }
    {
        if self.accepted {
            Some(&self.seen)
        } else {
            None
        }
    }

    /// How a delivery stands behind a set at this place, which makes this version, or accepts it.
    pub(crate) fn behind(
        alloc: Global,
        old: Option<&Delivery>,
        kind: EntryKind,
        place: usize,
        accepts: bool,
        seen: DsdRecord,
    ) -> Result<Delivery, Memory>
        ensures { IfOk result (λ made. made ≡ stand_after kind place accepts seen (option_copied old.entry)) }
    {
        let made = if accepts { None } else { Some(&seen) };
        let history = history_after(alloc, old, kind, place, made)?;
        let ours = if accepts {
            was_ours(old)
        } else {
            is_signed(kind)
        };
        Ok(Delivery {
            seen,
            ours,
            accepted: accepts,
            history,
        })
    }
}

/// The sets of a delivery with one more.
fn history_after(
    alloc: Global,
    old: Option<&Delivery>,
    kind: EntryKind,
    place: usize,
    made: Option<&DsdRecord>,
) -> Result<History, Memory>
    ensures { IfOk result (λ more. more ≡ sets_after kind place (option_copied made.entry) (history_of (option_copied old.entry))) }
{
    match old {
        Some(delivery) => delivery.history().after(alloc, kind, place, made),
        None => History::new(alloc).after(alloc, kind, place, made),
    }
}

fn was_ours(old: Option<&Delivery>) -> bool
    ensures { result ≡ ours_of (option_copied old.entry) }
{
    match old {
        Some(delivery) => delivery.is_ours(),
        None => false,
    }
}

pub(crate) fn is_signed(kind: EntryKind) -> bool
    ensures { result ≡ is_signed_kind kind }
{
    match kind {
        EntryKind::Signed => true,
        EntryKind::Took => false,
    }
}
