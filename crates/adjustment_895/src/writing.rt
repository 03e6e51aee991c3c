//! Writing an answer.

ghost use Rattle.std.specs.Prelude.{◌≡◌, ◌≢◌, ◌≤◌, [], ◌∷◌, All, IfOk, Err};
ghost use Rattle.dsd_values.specs.Spelling.{role_text};
ghost use Rattle.dsd_values.specs.Answers.{Gives, UnlessMemory};
ghost use Rattle.dsd_pricing.specs.WholeText.{unless_too_long};
ghost use Rattle.dsd_pricing.specs.declared.fault.PriceFault.{PriceFault as Unpriced};
ghost use Rattle.transaction_set.specs.RowsWritten.{after_writing, first_long, no_rows, text_after};
ghost use Rattle.segments.specs.SegmentSpelling.{IsSegment};
ghost use Rattle.segments.specs.SegmentWriting.{IsWrittenText, text_of};
ghost use Rattle.segments.specs.SetUnits.{IsSetText};
ghost use Rattle.segments.specs.declared.segment_writer.TheConstants.{MOST_CONTROL_NUMBER};
ghost use Rattle.adjustment_895.specs.AnswerText.{Is895, IsAnswer};
ghost use Rattle.adjustment_895.specs.WrittenText.{head_row, later_rows, opened_rows, rows_of, seal_of, written_of};

use crate::answer::Answer895;
use dsd_pricing::WriteFault;
use dsd_values::{Check, Role, SET_BYTES, SetText, write_check, write_level};
use segments::SegmentWriteFault;
use std::alloc::Global;
use transaction_set::{Form, SetWriter, flag_letter, head_id};

/// Writes an answer under this control number. It is read back as the same answer.
pub fn write_895(alloc: Global, answer: &Answer895, control: u32) -> Result<SetText, WriteFault>
    requires { control ≤ MOST_CONTROL_NUMBER }

    // It is refused for its first segment that is too long, else for its length; else it is written so.
    ensures exact { UnlessMemory WriteFault.Memory result (written_of answer.now control) }

    // What is written is this answer, in segments as they are written: the text of a set, in units that blocks take whole.
    ensures spelled { IfOk result (λ text. Is895 answer.now (seal_of answer.now control) text) }
    ensures written { IfOk result IsWrittenText }
    ensures set { IfOk result IsSetText }

    // The rows are not priced: the totals are written as the answer states them.
    ensures unpriced { (fault : Unpriced) → result ≢ Err (WriteFault.Price fault) }
{
    let (text, _check) = write_sealed_895(alloc, answer, control)?;
    Ok(text)
}

/// Writes an answer as [`write_895`] does, and answers the integrity value of what it wrote too.
pub fn write_sealed_895(
    alloc: Global,
    answer: &Answer895,
    control: u32,
) -> Result<(SetText, Check), WriteFault>
    requires { control ≤ MOST_CONTROL_NUMBER }
    ensures exact { Gives WriteFault.Memory (λ sealed. sealed.0) result (written_of answer.now control) }
    ensures check { IfOk result (λ sealed. sealed.1 ≡ (seal_of answer.now control).check) }
    ensures spelled { IfOk result (λ sealed. Is895 answer.now (seal_of answer.now control) sealed.0) }
    ensures written { IfOk result (λ sealed. IsWrittenText sealed.0) }
    ensures set { IfOk result (λ sealed. IsSetText sealed.0) }
    ensures unpriced { (fault : Unpriced) → result ≢ Err (WriteFault.Price fault) }
{
    let sealed = write_rows(alloc, answer, control)?;
    let length = sealed.0.as_slice().len();
    if length > SET_BYTES {
        return Err(WriteFault::LongSet(length));
    }
    Ok(sealed)
}

/// Writes all rows, however many bytes they take.
fn write_rows(
    alloc: Global,
    answer: &Answer895,
    control: u32,
) -> Result<(SetText, Check), WriteFault>
    requires { control ≤ MOST_CONTROL_NUMBER }
    ensures exact { Gives WriteFault.Memory (λ sealed. sealed.0) result (unless_too_long (first_long (rows_of answer.now control)) (text_of (rows_of answer.now control))) }
    ensures check { IfOk result (λ sealed. sealed.1 ≡ (seal_of answer.now control).check) }
    ensures written { IfOk result (λ sealed. IsWrittenText sealed.0) }
    ensures spelled { IsAnswer answer.now }
{
    match sealed(alloc, answer, control) {
        Ok(written) => Ok(written),
        Err(SegmentWriteFault::LongSegment(size)) => Err(WriteFault::LongSegment(size)),
        Err(SegmentWriteFault::Memory) => Err(WriteFault::Memory),
    }
}

fn sealed(
    alloc: Global,
    answer: &Answer895,
    control: u32,
) -> Result<(SetText, Check), SegmentWriteFault>
    requires { control ≤ MOST_CONTROL_NUMBER }
    ensures exact { Gives SegmentWriteFault.Memory (λ sealed. sealed.0) result (text_after (rows_of answer.now control) no_rows) }
    ensures check { IfOk result (λ sealed. sealed.1 ≡ (seal_of answer.now control).check) }
    ensures written { IfOk result (λ sealed. IsWrittenText sealed.0) }
    ensures spelled { IsAnswer answer.now }
{
    opened(SetWriter::new(alloc), answer, control)?.seal(control)
}

/// Writes the rows up to the integrity value.
fn opened(
    writer: SetWriter,
    answer: &Answer895,
    control: u32,
) -> Result<SetWriter, SegmentWriteFault>
    requires { control ≤ MOST_CONTROL_NUMBER }
    ensures exact { UnlessMemory SegmentWriteFault.Memory result (after_writing (opened_rows answer.now control) writer) }
    ensures spelled { IsAnswer answer.now }
{
    // That some segments say the answer is known once its totals are told.
    let _ = answer.stated();
    let writer = head(writer.start(Form::Answer, control)?, answer)?;
    later(writer.references(answer.notes())?, answer)
}

/// Writes what stands behind the note, up to the integrity value.
fn later(writer: SetWriter, answer: &Answer895) -> Result<SetWriter, SegmentWriteFault>
    requires { All IsSegment (later_rows answer.now) }
    ensures { UnlessMemory SegmentWriteFault.Memory result (after_writing (later_rows answer.now) writer) }
{
    writer.body(
        Form::Answer,
        answer.lines().as_slice(),
        &[],
        answer.stated(),
        answer.signature(),
    )
}

/// Writes a G87.
fn head(writer: SetWriter, answer: &Answer895) -> Result<SetWriter, SegmentWriteFault>
    requires { IsSegment (head_row answer.now) }
    ensures { UnlessMemory SegmentWriteFault.Memory result (after_writing (head_row answer.now ∷ []) writer) }
{
    let role = [role_letter(answer.role())];
    let flag = [flag_letter(answer.flag())];
    let check = write_check(answer.check());
    let level = write_level(answer.level());
    writer.row(
        head_id(Form::Answer),
        &[
            role.as_slice(),
            flag.as_slice(),
            answer.number().as_slice(),
            check.as_slice(),
            level.as_slice(),
            answer.receiver_number().as_slice(),
        ],
        b"",
    )
}

/// The one letter of a role.
fn role_letter(role: Role) -> u8
    ensures { result ∷ [] ≡ role_text role }
{
    match role {
        Role::Supplier => b'S',
        Role::Receiver => b'R',
    }
}
