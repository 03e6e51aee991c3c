//! G82, the head of a base record.

ghost use Rattle.std.specs.Prelude.{◌≡◌, [], IfOk};
ghost use Rattle.segments.specs.Views.{element_of};
ghost use Rattle.segments.specs.Elements.{Reads, at_element, said};
ghost use Rattle.dsd_values.specs.Reading.{flag_of, delivery_number_of};
ghost use Rattle.dsd_values.specs.Calendar.{day_of};
ghost use Rattle.base_record_894.specs.HeadTable.{head_fault, head_in, no_day};
ghost use Rattle.base_record_894.specs.Making.{IsPlainHead, head_alone};
ghost use Rattle.dsd_values.specs.declared.flag.Flag.TheVariants as flags;

use dsd_values::{
    Day, DeliveryNumber, Flag, Kept, Memory, Word, read_day, read_delivery_number, read_flag,
};
use segments::{ItemFault, Segment, in_element, tail_at, word_at};
use std::alloc::Global;

/// What a G82 says in its listed elements.
#[derive(Debug, Drop)]
pub struct BaseHead {
    /// Whether the delivery is charged or credited.
    pub flag: Flag,
    pub number: DeliveryNumber,
    /// The day of the delivery.
    pub day: Day,
    /// The receiver's DUNS number.
    pub receiver_duns: Word,
    pub receiver_place: Word,
    /// The supplier's DUNS number.
    pub supplier_duns: Word,
    pub supplier_place: Word,
}

impl BaseHead {
    /// The head of these fields, with nothing behind them.
    pub fn with_no_tail(self) -> Head
        ensures value { result ≡ head_alone self }
        ensures plain { IsPlainHead self }
    {
        // What the types keep is known once their values are lent.
        let _ = self.number.as_slice();
        let _ = self.day.year();
        let _ = self.receiver_duns.as_slice();
        let _ = self.receiver_place.as_slice();
        let _ = self.supplier_duns.as_slice();
        let _ = self.supplier_place.as_slice();
        Head {
            flag: self.flag,
            number: self.number,
            receiver_duns: self.receiver_duns,
            receiver_place: self.receiver_place,
            supplier_duns: self.supplier_duns,
            supplier_place: self.supplier_place,
            day: self.day,
            tail: Kept::empty(),
        }
    }
}

/// What a G82 says.
#[derive(Debug, Drop)]
pub struct Head {
    pub flag: Flag,
    pub number: DeliveryNumber,
    pub receiver_duns: Word,
    pub receiver_place: Word,
    pub supplier_duns: Word,
    pub supplier_place: Word,
    pub day: Day,
    pub tail: Kept,
}

impl Head {
    /// An equal head.
    pub fn try_copy(&self, alloc: Global) -> Result<Head, Memory>
        ensures { IfOk result (λ copy. copy ≡ self.now) }
    {
        Ok(Head {
            flag: self.flag,
            number: self.number.copy(),
            receiver_duns: self.receiver_duns.copy(),
            receiver_place: self.receiver_place.copy(),
            supplier_duns: self.supplier_duns.copy(),
            supplier_place: self.supplier_place.copy(),
            day: self.day,
            tail: self.tail.try_copy(alloc)?,
        })
    }
}

/// The seven elements of a G82, and the tail behind them.
pub fn read_head(alloc: Global, segment: &Segment<'_>) -> Result<Head, ItemFault>
    ensures { Reads result (head_fault segment.now) (λ head. head ≡ head_in segment.now) }
{
    let flag = flag(segment, 1)?;
    let number = delivery_number(segment, 2)?;
    let receiver_duns = word_at(segment, 3)?;
    let receiver_place = word_at(segment, 4)?;
    let supplier_duns = word_at(segment, 5)?;
    let supplier_place = word_at(segment, 6)?;
    let day = day(segment, 7)?;
    let tail = tail_at(alloc, segment, 8)?;
    Ok(Head {
        flag,
        number,
        receiver_duns,
        receiver_place,
        supplier_duns,
        supplier_place,
        day,
        tail,
    })
}

fn flag(segment: &Segment<'_>, element: usize) -> Result<Flag, ItemFault>
    ensures { Reads result (at_element element (flag_of (element_of segment.now element))) (λ v. v ≡ said flags.Debit (flag_of (element_of segment.now element))) }
{
    in_element(element, read_flag(segment.element(element)))
}

fn delivery_number(segment: &Segment<'_>, element: usize) -> Result<DeliveryNumber, ItemFault>
    ensures { Reads result (at_element element (delivery_number_of (element_of segment.now element))) (λ v. v ≡ said [] (delivery_number_of (element_of segment.now element))) }
{
    in_element(element, read_delivery_number(segment.element(element)))
}

fn day(segment: &Segment<'_>, element: usize) -> Result<Day, ItemFault>
    ensures { Reads result (at_element element (day_of (element_of segment.now element))) (λ v. v ≡ said no_day (day_of (element_of segment.now element))) }
{
    in_element(element, read_day(segment.element(element)))
}
