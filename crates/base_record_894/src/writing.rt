//! Writing a base record.

ghost use Rattle.std.specs.Prelude.{◌≡◌, ◌≢◌, ◌≤◌, [], ◌∷◌, All, IfOk, Err};
ghost use Rattle.dsd_values.specs.Answers.{Gives, UnlessMemory};
ghost use Rattle.dsd_pricing.specs.WholeText.{unless_too_long};
ghost use Rattle.dsd_pricing.specs.declared.fault.PriceFault.{PriceFault as Unpriced};
ghost use Rattle.transaction_set.specs.RowsWritten.{after_writing, first_long, no_rows, text_after};
ghost use Rattle.segments.specs.SegmentSpelling.{IsSegment};
ghost use Rattle.segments.specs.SegmentWriting.{IsWrittenText, text_of};
ghost use Rattle.segments.specs.SetUnits.{IsSetText};
ghost use Rattle.segments.specs.declared.segment_writer.TheConstants.{MOST_CONTROL_NUMBER};
ghost use Rattle.base_record_894.specs.RecordText.{Is894, IsBase};
ghost use Rattle.base_record_894.specs.WrittenText.{head_row, later_rows, opened_rows, rows_of, seal_of, written_of};

use crate::base::Base;
use dsd_pricing::WriteFault;
use dsd_values::{Check, SET_BYTES, SetText, write_day};
use segments::SegmentWriteFault;
use std::alloc::Global;
use transaction_set::{Form, SetWriter, flag_letter, head_id};

/// Writes a base record under this control number. It is read back as the same record.
pub fn write_894(alloc: Global, base: &Base, control: u32) -> Result<SetText, WriteFault>
    requires { control ≤ MOST_CONTROL_NUMBER }

    // It is refused for its first segment that is too long, else for its length; else it is written so.
    ensures exact { UnlessMemory WriteFault.Memory result (written_of base.now control) }

    // What is written is this record, in segments as they are written: the text of a set, in units that blocks take whole.
    ensures spelled { IfOk result (λ text. Is894 base.now (seal_of base.now control) text) }
    ensures written { IfOk result IsWrittenText }
    ensures set { IfOk result IsSetText }

    // A record has a price.
    ensures priced { (fault : Unpriced) → result ≢ Err (WriteFault.Price fault) }
{
    let (text, _check) = write_sealed_894(alloc, base, control)?;
    Ok(text)
}

/// Writes a base record as [`write_894`] does, and answers the integrity value of what it wrote too.
pub fn write_sealed_894(
    alloc: Global,
    base: &Base,
    control: u32,
) -> Result<(SetText, Check), WriteFault>
    requires { control ≤ MOST_CONTROL_NUMBER }
    ensures exact { Gives WriteFault.Memory (λ sealed. sealed.0) result (written_of base.now control) }
    ensures check { IfOk result (λ sealed. sealed.1 ≡ (seal_of base.now control).check) }
    ensures spelled { IfOk result (λ sealed. Is894 base.now (seal_of base.now control) sealed.0) }
    ensures written { IfOk result (λ sealed. IsWrittenText sealed.0) }
    ensures set { IfOk result (λ sealed. IsSetText sealed.0) }
    ensures priced { (fault : Unpriced) → result ≢ Err (WriteFault.Price fault) }
{
    let sealed = write_rows(alloc, base, control)?;
    let length = sealed.0.as_slice().len();
    if length > SET_BYTES {
        return Err(WriteFault::LongSet(length));
    }
    Ok(sealed)
}

/// Writes all rows, however many bytes they take.
fn write_rows(alloc: Global, base: &Base, control: u32) -> Result<(SetText, Check), WriteFault>
    requires { control ≤ MOST_CONTROL_NUMBER }
    ensures exact { Gives WriteFault.Memory (λ sealed. sealed.0) result (unless_too_long (first_long (rows_of base.now control)) (text_of (rows_of base.now control))) }
    ensures check { IfOk result (λ sealed. sealed.1 ≡ (seal_of base.now control).check) }
    ensures written { IfOk result (λ sealed. IsWrittenText sealed.0) }
    ensures spelled { IsBase base.now }
{
    match sealed(alloc, base, control) {
        Ok(written) => Ok(written),
        Err(SegmentWriteFault::LongSegment(size)) => Err(WriteFault::LongSegment(size)),
        Err(SegmentWriteFault::Memory) => Err(WriteFault::Memory),
    }
}

fn sealed(alloc: Global, base: &Base, control: u32) -> Result<(SetText, Check), SegmentWriteFault>
    requires { control ≤ MOST_CONTROL_NUMBER }
    ensures exact { Gives SegmentWriteFault.Memory (λ sealed. sealed.0) result (text_after (rows_of base.now control) no_rows) }
    ensures check { IfOk result (λ sealed. sealed.1 ≡ (seal_of base.now control).check) }
    ensures written { IfOk result (λ sealed. IsWrittenText sealed.0) }
    ensures spelled { IsBase base.now }
{
    opened(SetWriter::new(alloc), base, control)?.seal(control)
}

/// Writes the rows up to the integrity value.
fn opened(writer: SetWriter, base: &Base, control: u32) -> Result<SetWriter, SegmentWriteFault>
    requires { control ≤ MOST_CONTROL_NUMBER }
    ensures exact { UnlessMemory SegmentWriteFault.Memory result (after_writing (opened_rows base.now control) writer) }
    ensures spelled { IsBase base.now }
{
    // That some segments say the record is known once its totals are told.
    let _ = base.stated();
    let writer = head(writer.start(Form::Base, control)?, base)?;
    later(writer.references(base.references().as_slice())?, base)
}

/// Writes what stands behind the references, up to the integrity value.
fn later(writer: SetWriter, base: &Base) -> Result<SetWriter, SegmentWriteFault>
    requires { All IsSegment (later_rows base.now) }
    ensures { UnlessMemory SegmentWriteFault.Memory result (after_writing (later_rows base.now) writer) }
{
    writer.body(
        Form::Base,
        base.lines().as_slice(),
        base.extras().as_slice(),
        base.stated(),
        base.signature(),
    )
}

/// Writes a G82.
fn head(writer: SetWriter, base: &Base) -> Result<SetWriter, SegmentWriteFault>
    requires { IsSegment (head_row base.now) }
    ensures { UnlessMemory SegmentWriteFault.Memory result (after_writing (head_row base.now ∷ []) writer) }
{
    let flag = [flag_letter(base.flag())];
    let day = write_day(base.day());
    writer.row(
        head_id(Form::Base),
        &[
            flag.as_slice(),
            base.number().as_slice(),
            base.receiver_duns().as_slice(),
            base.receiver_place().as_slice(),
            base.supplier_duns().as_slice(),
            base.supplier_place().as_slice(),
            day.as_slice(),
        ],
        base.tail().as_slice(),
    )
}
