//! The segments round the items of a set: start, loop, totals, signature, integrity value and trailer.

ghost use Rattle.std.specs.Prelude.{◌≡◌};
ghost use Rattle.segments.specs.Elements.{Reads};
ghost use Rattle.transaction_set.specs.Tables.{start_fault, control_in, loop_start_fault, loop_id_in, totals_fault, totals_in, signature_fault, signature_in, integrity_fault, integrity_in, trailer_fault, stated_count_in, control_again_in};

use crate::stated::StatedTotals;
use dsd_values::{Check, MARK_BYTES, Signature, Word};
use segments::{
    ItemFault, Segment, cents_at, check_at, end_of_elements, filled_word_at, number_at,
    optional_cents_at, total_quantity_at, word_at, word_between_at,
};

/// The control number of an ST.
pub fn read_start(segment: &Segment<'_>) -> Result<Word, ItemFault>
    ensures { Reads result (start_fault segment.now) (λ control. control ≡ control_in segment.now) }
{
    let control = word_between_at(segment, 2, 4, 9)?;
    end_of_elements(segment, 2)?;
    Ok(control)
}

/// The id of the loop that an LS begins.
pub fn read_loop_start(segment: &Segment<'_>) -> Result<Word, ItemFault>
    ensures { Reads result (loop_start_fault segment.now) (λ loop_id. loop_id ≡ loop_id_in segment.now) }
{
    let loop_id = word_between_at(segment, 1, 1, 6)?;
    end_of_elements(segment, 1)?;
    Ok(loop_id)
}

/// What a G84 states.
pub fn read_totals(segment: &Segment<'_>) -> Result<StatedTotals, ItemFault>
    ensures { Reads result (totals_fault segment.now) (λ totals. totals ≡ totals_in segment.now) }
{
    let quantity = total_quantity_at(segment, 1)?;
    let amount = cents_at(segment, 2)?;
    let deposit = optional_cents_at(segment, 3)?;
    end_of_elements(segment, 3)?;
    Ok(StatedTotals {
        quantity,
        amount,
        deposit,
    })
}

/// The signature of a G86.
pub fn read_signature(segment: &Segment<'_>) -> Result<Signature, ItemFault>
    ensures { Reads result (signature_fault segment.now) (λ signature. signature ≡ signature_in segment.now) }
{
    let mark = word_between_at(segment, 1, 1, MARK_BYTES)?;
    let name = word_at(segment, 2)?;
    end_of_elements(segment, 2)?;
    Ok(Signature::new(mark, name))
}

/// The integrity value that a G85 states.
pub fn read_integrity(segment: &Segment<'_>) -> Result<Check, ItemFault>
    ensures { Reads result (integrity_fault segment.now) (λ stated. stated ≡ integrity_in segment.now) }
{
    let stated = check_at(segment, 1)?;
    end_of_elements(segment, 1)?;
    Ok(stated)
}

/// The number of segments and the control number that an SE states.
pub fn read_trailer(segment: &Segment<'_>) -> Result<(u64, Word), ItemFault>
    ensures { Reads result (trailer_fault segment.now) (λ stated. (stated.0 ≡ stated_count_in segment.now) × (stated.1 ≡ control_again_in segment.now)) }
{
    let count = number_at(segment, 1)?;
    let control = filled_word_at(segment, 2)?;
    end_of_elements(segment, 2)?;
    Ok((count, control))
}
