//! Deliveries under their numbers.

ghost use Rattle.std.specs.Prelude.{◌≡◌, ◌<◌, [], ℕ, List, MatchOption, None, Some, bytes_eq, cond, slice_index_or};
ghost use Rattle.std.specs.Map.{keys_of};
ghost use Rattle.std.specs.Option.{option_and_then, option_copied};
ghost use Rattle.indexmap.specs.IndexMap.{index_map_len, keys, spare};
ghost use Rattle.indexmap.specs.IndexSet.{insert_key};
ghost use Rattle.delivery_book.specs.Index.{final_by_stand, kept_in, text_at as text_at_place};

use crate::delivery::{Deliveries, Delivery};
use dsd_journal::Entry;
use dsd_record::DsdRecord;
use dsd_values::{DeliveryNumber, SetText};

/// The delivery at this index, under its number.
pub(crate) fn at(deliveries: &Deliveries, index: usize) -> (&DeliveryNumber, &Delivery)
    requires { index < index_map_len deliveries.now }
    ensures number { result.0.now ≡ slice_index_or (keys deliveries.now) index [] }
    ensures kept { kept_in deliveries.now.entries (slice_index_or (keys deliveries.now) index []) ≡ Some result.1.now }
{
    match deliveries.get_index(index) {
        Some(pair) => pair,
        None => unreachable!(),
    }
}

/// The index of the delivery with this number.
pub(crate) fn index_of(deliveries: &Deliveries, number: &DeliveryNumber) -> Option<usize>
    ensures { MatchOption result (kept_in deliveries.now.entries number.now ≡ None) (λ index. (index < index_map_len deliveries.now) × (slice_index_or (keys deliveries.now) index [] ≡ number.now)) }
{
    deliveries.get_index_of(number)
}

/// The version of a delivery that is accepted.
pub(crate) fn final_among<'a>(
    deliveries: &'a Deliveries,
    number: &DeliveryNumber,
) -> Option<&'a DsdRecord>
    ensures { option_copied result ≡ final_by_stand (kept_in deliveries.now.entries number.now) }
{
    match deliveries.get(number) {
        Some(delivery) => delivery.accepted_version(),
        None => None,
    }
}

/// The text of the entry at this place, where there is one.
pub(crate) fn text_at(entries: &[Entry], place: Option<usize>) -> Option<&SetText>
    ensures { option_copied result ≡ option_and_then (text_at_place entries.now) place }
{
    match entries.get(place?) {
        Some(entry) => Some(&entry.payload),
        None => None,
    }
}

/// Keeps a delivery under its number, in room that was made before.
pub(crate) fn put(deliveries: &mut Deliveries, number: DeliveryNumber, delivery: Delivery)
    requires { 0 < spare deliveries.old }
    ensures kept { (other : List ℕ) → kept_in deliveries.new.entries other ≡ cond (bytes_eq number other) (Some delivery) (kept_in deliveries.old.entries other) }
    ensures order { keys_of deliveries.new.entries ≡ insert_key bytes_eq (keys_of deliveries.old.entries) number }
{
    match deliveries.insert(number, delivery) {
        Ok(_before) => {}
        Err(_) => unreachable!(),
    }
}
