//! Which sets of a delivery were signed and taken, so that no call reads the entries again.

ghost use Rattle.std.specs.Prelude.{◌≡◌, ◌++◌, ◌∷◌, [], IfOk};
ghost use Rattle.std.specs.List.{find};
ghost use Rattle.std.specs.Option.{option_copied};
ghost use Rattle.delivery_book.specs.Index.{history_after, no_history, offer_of};
ghost use Rattle.delivery_book.specs.StandFaults.{is_offer};

use dsd_journal::EntryKind;
use dsd_record::DsdRecord;
use dsd_values::{Cents, Check, Level, Memory};
use std::alloc::Global;
use std::marker::Model;

/// The level and the integrity value of a proposal.
#[derive(Clone, Copy, Debug)]
pub struct Offer {
    pub level: Level,
    pub check: Check,
}

/// The sets of a delivery that this end signed and took.
#[derive(Drop)]
pub(crate) struct History {
    amount: Option<Cents>,
    last: Option<usize>,
    offers: Vec<Offer>,
    taken: Vec<usize>,
}

impl Model for History {
    ghost use Rattle.delivery_book.specs.Index.{History as Sets};

    ghost Value = { Sets };

    ghost view = { λ h. record { amount = h.amount; last = h.last; offers = h.offers.items; taken = h.taken.items } };
}

impl History {
    pub(crate) fn new(alloc: Global) -> History
        ensures { result ≡ no_history }
    {
        History {
            amount: None,
            last: None,
            offers: Vec::new(alloc),
            taken: Vec::new(alloc),
        }
    }

    /// The amount of the last proposal that this end signed.
    pub(crate) fn amount(&self) -> Option<Cents>
        ensures { result ≡ self.now.amount }
    {
        self.amount
    }

    /// The place among the entries of the last set that this end signed.
    pub(crate) fn last(&self) -> Option<usize>
        ensures { result ≡ self.now.last }
    {
        self.last
    }

    /// The places of the sets that it took.
    pub(crate) fn taken(&self) -> &[usize]
        ensures { result.now ≡ self.now.taken }
    {
        self.taken.as_slice()
    }

    /// The proposal of this end with this level and this integrity value.
    pub(crate) fn offer(&self, level: u8, check: Check) -> Option<Offer>
        ensures { result ≡ find (is_offer level check) self.now.offers }
    {
        find_offer(self.offers.as_slice(), level, check)
    }

    /// The same with a set at this place more, which makes this version where it is a proposal.
    pub(crate) fn after(
        &self,
        alloc: Global,
        kind: EntryKind,
        place: usize,
        made: Option<&DsdRecord>,
    ) -> Result<History, Memory>
        ensures { IfOk result (λ more. more ≡ history_after kind place (option_copied made.entry) self.now) }
    {
        match kind {
            EntryKind::Took => self.with_taken(alloc, place),
            EntryKind::Signed => self.with_signed(alloc, place, made),
        }
    }

    fn with_taken(&self, alloc: Global, place: usize) -> Result<History, Memory>
        ensures { IfOk result (λ more. more ≡ record self.now { taken = self.now.taken ++ place ∷ [] }) }
    {
        Ok(History {
            amount: self.amount,
            last: self.last,
            offers: Vec::from_slice(alloc, self.offers.as_slice())?,
            taken: with_place(alloc, self.taken.as_slice(), place)?,
        })
    }

    fn with_signed(
        &self,
        alloc: Global,
        place: usize,
        made: Option<&DsdRecord>,
    ) -> Result<History, Memory>
        ensures { IfOk result (λ more. more ≡ history_after EntryKind.Signed place (option_copied made.entry) self.now) }
    {
        let taken = Vec::from_slice(alloc, self.taken.as_slice())?;
        match made {
            None => Ok(History {
                amount: self.amount,
                last: Some(place),
                offers: Vec::from_slice(alloc, self.offers.as_slice())?,
                taken,
            }),
            Some(made) => Ok(History {
                amount: Some(made.totals().amount),
                last: Some(place),
                offers: with_offer(alloc, self.offers.as_slice(), offer_made(made))?,
                taken,
            }),
        }
    }
}

/// The proposal that made a version.
fn offer_made(made: &DsdRecord) -> Offer
    ensures { result ≡ offer_of made.now }
{
    Offer {
        level: made.level(),
        check: made.check(),
    }
}

fn find_offer(offers: &[Offer], level: u8, check: Check) -> Option<Offer>
    ensures { result ≡ find (is_offer level check) offers.now }
{
    for offer in offers {
        if offer.level.get() == level && offer.check == check {
            return Some(*offer);
        }
    }
    None
}

/// A copy with one more.
fn with_offer(alloc: Global, offers: &[Offer], more: Offer) -> Result<Vec<Offer>, Memory>
    ensures { IfOk result (λ copy. copy.items ≡ offers.now ++ more ∷ []) }
{
    let mut copy = Vec::from_slice(alloc, offers)?;
    copy.push(more)?;
    Ok(copy)
}

/// A copy with one more.
fn with_place(alloc: Global, places: &[usize], more: usize) -> Result<Vec<usize>, Memory>
    ensures { IfOk result (λ copy. copy.items ≡ places.now ++ more ∷ []) }
{
    let mut copy = Vec::from_slice(alloc, places)?;
    copy.push(more)?;
    Ok(copy)
}
