//! G87, the head of an answer.

ghost use Rattle.std.specs.Prelude.{◌≡◌, []};
ghost use Rattle.segments.specs.Views.{element_of};
ghost use Rattle.segments.specs.Elements.{Reads, at_element, said};
ghost use Rattle.dsd_values.specs.Reading.{role_of, flag_of, delivery_number_of, level_of};
ghost use Rattle.adjustment_895.specs.HeadTable.{head_fault, head_in, is_past_levels as past_levels};
ghost use Rattle.dsd_values.specs.declared.flag.Flag.TheVariants as flags;
ghost use Rattle.dsd_values.specs.declared.role.Role.TheVariants as roles;

use dsd_values::{
    Check, DeliveryNumber, Flag, Level, Role, Word, read_delivery_number, read_flag, read_level,
    read_role,
};
use segments::{ItemFault, Segment, check_at, end_of_elements, in_element, word_at};

/// What a G87 says.
#[derive(Debug, Drop)]
pub struct AnswerHead {
    /// Who signs.
    pub role: Role,
    /// Whether the delivery is charged or credited.
    pub flag: Flag,
    pub number: DeliveryNumber,
    /// The integrity value of the set that is answered.
    pub check: Check,
    /// Of an adjustment its own level, of an acknowledgement the accepted one.
    pub level: Level,
    pub receiver_number: Word,
}

impl AnswerHead {
    /// An equal head.
    pub fn copy(&self) -> AnswerHead
        ensures { result ≡ self.now }
    {
        AnswerHead {
            role: self.role,
            flag: self.flag,
            number: self.number.copy(),
            check: self.check,
            level: self.level,
            receiver_number: self.receiver_number.copy(),
        }
    }
}

/// The six elements of a G87.
pub fn read_head(segment: &Segment<'_>) -> Result<AnswerHead, ItemFault>
    ensures { Reads result (head_fault segment.now) (λ head. head ≡ head_in segment.now) }
{
    let role = role(segment, 1)?;
    let flag = flag(segment, 2)?;
    let number = delivery_number(segment, 3)?;
    let check = check_at(segment, 4)?;
    let level = level(segment, 5)?;
    let receiver_number = word_at(segment, 6)?;
    end_of_elements(segment, 6)?;
    Ok(AnswerHead {
        role,
        flag,
        number,
        check,
        level,
        receiver_number,
    })
}

/// Whether a text is a level from 10 to 99.
pub fn is_past_levels(text: &[u8]) -> bool
    ensures { result ≡ past_levels text.now }
{
    match text {
        [first, second] => { first.is_ascii_digit() && second.is_ascii_digit() && *first != b'0' }
        _ => false,
    }
}

fn role(segment: &Segment<'_>, element: usize) -> Result<Role, ItemFault>
    ensures { Reads result (at_element element (role_of (element_of segment.now element))) (λ v. v ≡ said roles.Supplier (role_of (element_of segment.now element))) }
{
    in_element(element, read_role(segment.element(element)))
}

fn flag(segment: &Segment<'_>, element: usize) -> Result<Flag, ItemFault>
    ensures { Reads result (at_element element (flag_of (element_of segment.now element))) (λ v. v ≡ said flags.Debit (flag_of (element_of segment.now element))) }
{
    in_element(element, read_flag(segment.element(element)))
}

fn delivery_number(segment: &Segment<'_>, element: usize) -> Result<DeliveryNumber, ItemFault>
    ensures { Reads result (at_element element (delivery_number_of (element_of segment.now element))) (λ v. v ≡ said [] (delivery_number_of (element_of segment.now element))) }
{
    in_element(element, read_delivery_number(segment.element(element)))
}

fn level(segment: &Segment<'_>, element: usize) -> Result<Level, ItemFault>
    ensures { Reads result (at_element element (level_of (element_of segment.now element))) (λ v. v ≡ said 0 (level_of (element_of segment.now element))) }
{
    in_element(element, read_level(segment.element(element)))
}
