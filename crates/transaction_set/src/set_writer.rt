//! The rows of a set, written one after another.

ghost use Rattle.std.specs.Prelude.{◌≡◌, [], ◌∷◌, All, IfOk, map};
ghost use Rattle.std.specs.List.{flat_map};
ghost use Rattle.block_check.specs.Crc16.{crc_of};
ghost use Rattle.dsd_values.specs.Answers.{Gives, UnlessMemory};
ghost use Rattle.transaction_set.specs.RowsWritten.{after_writing, no_rows, text_after};
ghost use Rattle.segments.specs.SegmentSpelling.{IsSegment};
ghost use Rattle.segments.specs.SegmentWriting.{IsWrittenText};
ghost use Rattle.transaction_set.specs.SetWriting.{body_rows, extra_row, item_row, kept_row, line_rows, loop_rows, row_of, sealing_rows, signature_row, start_row, totals_row, allowance_row};

use crate::giving::{cut, give_all, give_tail, or_empty};
use crate::kind::{Form, item_id, set_code};
use crate::stated::StatedTotals;
use crate::texts::{
    control_digits, optional_cents, optional_cost, optional_percent, optional_quantity,
};
use block_check::check_of;
use dsd_values::{
    Allowance, Check, Extra, Kept, Line, SetText, Signature, write_cents, write_check, write_cost,
    write_dsd, write_plain_number, write_quantity,
};
use segments::{SegmentWriteFault, SegmentWriter};
use std::alloc::Global;
use std::marker::Model;

/// Writes rows: the id and the elements of each segment of a set. A call that is refused takes the writer with it.
#[derive(Drop)]
pub struct SetWriter {
    segments: SegmentWriter,
    /// How many segments there are.
    count: usize,
}

impl Model for SetWriter {
    ghost use Rattle.transaction_set.specs.RowsWritten.{KeepsCount, SetSoFar};

    ghost Value = { SetSoFar };

    ghost view = { λ w. record { text = w.segments.text; count = w.count } };

    ghost invariant = { λ w. KeepsCount w.segments w.count };
}

impl SetWriter {
    /// A writer of no rows.
    pub fn new(alloc: Global) -> SetWriter
        ensures { result ≡ no_rows }
    {
        SetWriter {
            segments: SegmentWriter::new(alloc),
            count: 0,
        }
    }

    /// Writes one row: an id, these elements, and those of a tail as it is kept.
    pub fn row(
        self,
        id: &[u8],
        elements: &[&[u8]],
        tail: &[u8],
    ) -> Result<SetWriter, SegmentWriteFault>
        requires { IsSegment (row_of id.now (map (λ e. e.now) elements.now) tail.now) }
        ensures { UnlessMemory SegmentWriteFault.Memory result (after_writing (row_of id.now (map (λ e. e.now) elements.now) tail.now ∷ []) self) }
    {
        let SetWriter {
            mut segments,
            count,
        } = self;
        segments.begin(id)?;
        give_all(&mut segments, elements)?;
        give_tail(&mut segments, tail)?;
        segments.end()?;
        let _ = segments.written();
        Ok(SetWriter {
            segments,
            count: count + 1,
        })
    }

    /// Writes an ST.
    pub fn start(self, form: Form, control: u32) -> Result<SetWriter, SegmentWriteFault>
        requires { IsSegment (start_row form control) }
        ensures { UnlessMemory SegmentWriteFault.Memory result (after_writing (start_row form control ∷ []) self) }
    {
        let control = control_digits(control);
        self.row(b"ST", &[set_code(form), control.as_slice()], b"")
    }

    /// Writes a segment that is kept as it came.
    pub fn kept(self, text: &Kept) -> Result<SetWriter, SegmentWriteFault>
        requires { IsSegment (kept_row text.now) }
        ensures { UnlessMemory SegmentWriteFault.Memory result (after_writing (kept_row text.now ∷ []) self) }
    {
        let (id, behind) = cut(text.as_slice());
        self.row(id, &[], or_empty(behind))
    }

    /// Writes the references of a base record.
    pub fn references(self, texts: &[Kept]) -> Result<SetWriter, SegmentWriteFault>
        requires { All IsSegment (map kept_row texts.now) }
        ensures { UnlessMemory SegmentWriteFault.Memory result (after_writing (map kept_row texts.now) self) }
    {
        let mut writer = self;
        for text in texts {
            writer = writer.kept(text)?;
        }
        Ok(writer)
    }

    /// Writes an item.
    fn item(self, form: Form, line: &Line) -> Result<SetWriter, SegmentWriteFault>
        requires { IsSegment (item_row form line.now) }
        ensures { UnlessMemory SegmentWriteFault.Memory result (after_writing (item_row form line.now ∷ []) self) }
    {
        self.row(
            item_id(form),
            &[
                write_dsd(line.dsd).as_slice(),
                write_quantity(line.quantity).as_slice(),
                line.unit.as_slice(),
                line.upc.as_slice(),
                line.details.qualifier(),
                line.details.id(),
                line.details.case_code(),
                write_cost(line.cost).as_slice(),
                line.details.pack(),
                line.details.label(),
            ],
            line.tail.as_slice(),
        )
    }

    /// Writes an allowance.
    fn allowance(self, allowance: &Allowance) -> Result<SetWriter, SegmentWriteFault>
        requires { IsSegment (allowance_row allowance.now) }
        ensures { UnlessMemory SegmentWriteFault.Memory result (after_writing (allowance_row allowance.now ∷ []) self) }
    {
        self.row(
            b"G72",
            &[
                allowance.code.as_slice(),
                allowance.method.as_slice(),
                allowance.number.as_slice(),
                allowance.exception.as_slice(),
                optional_cost(allowance.rate).as_slice(),
                optional_quantity(allowance.quantity).as_slice(),
                allowance.unit.as_slice(),
                optional_cents(allowance.total).as_slice(),
                optional_percent(allowance.percent).as_slice(),
            ],
            allowance.tail.as_slice(),
        )
    }

    fn extra(self, extra: &Extra) -> Result<SetWriter, SegmentWriteFault>
        requires { IsSegment (extra_row extra.now) }
        ensures { UnlessMemory SegmentWriteFault.Memory result (after_writing (extra_row extra.now ∷ []) self) }
    {
        match extra {
            Extra::Allow(allowance) => self.allowance(allowance.get()),
            Extra::Note(text) => self.kept(text),
        }
    }

    /// Writes extras, of a line or of the record.
    fn extras(self, extras: &[Extra]) -> Result<SetWriter, SegmentWriteFault>
        requires { All IsSegment (map extra_row extras.now) }
        ensures { UnlessMemory SegmentWriteFault.Memory result (after_writing (map extra_row extras.now) self) }
    {
        let mut writer = self;
        for extra in extras {
            writer = writer.extra(extra)?;
        }
        Ok(writer)
    }

    /// Writes an item and the extras behind it.
    fn line(self, form: Form, line: &Line) -> Result<SetWriter, SegmentWriteFault>
        requires { All IsSegment (line_rows form line.now) }
        ensures { UnlessMemory SegmentWriteFault.Memory result (after_writing (line_rows form line.now) self) }
    {
        self.item(form, line)?.extras(line.extras.as_slice())
    }

    fn lines(self, form: Form, lines: &[Line]) -> Result<SetWriter, SegmentWriteFault>
        requires { All IsSegment (flat_map (line_rows form) lines.now) }
        ensures { UnlessMemory SegmentWriteFault.Memory result (after_writing (flat_map (line_rows form) lines.now) self) }
    {
        let mut writer = self;
        for line in lines {
            writer = writer.line(form, line)?;
        }
        Ok(writer)
    }

    /// Writes a loop of items where there are lines.
    fn items(self, form: Form, lines: &[Line]) -> Result<SetWriter, SegmentWriteFault>
        requires { All IsSegment (loop_rows form lines.now) }
        ensures { UnlessMemory SegmentWriteFault.Memory result (after_writing (loop_rows form lines.now) self) }
    {
        if lines.is_empty() {
            return Ok(self);
        }
        self.row(b"LS", &[b"0100"], b"")?
            .lines(form, lines)?
            .row(b"LE", &[b"0100"], b"")
    }

    fn totals(self, totals: StatedTotals) -> Result<SetWriter, SegmentWriteFault>
        requires { IsSegment (totals_row totals) }
        ensures { UnlessMemory SegmentWriteFault.Memory result (after_writing (totals_row totals ∷ []) self) }
    {
        let quantity = write_plain_number(u64::from(totals.quantity));
        let amount = write_cents(totals.amount);
        let deposit = optional_cents(totals.deposit);
        self.row(
            b"G84",
            &[quantity.as_slice(), amount.as_slice(), deposit.as_slice()],
            b"",
        )
    }

    fn signature(self, signature: &Signature) -> Result<SetWriter, SegmentWriteFault>
        requires { IsSegment (signature_row signature.now) }
        ensures { UnlessMemory SegmentWriteFault.Memory result (after_writing (signature_row signature.now ∷ []) self) }
    {
        self.row(
            b"G86",
            &[signature.mark().as_slice(), signature.name().as_slice()],
            b"",
        )
    }

    /// Writes what stands between the references and the integrity value.
    pub fn body(
        self,
        form: Form,
        lines: &[Line],
        extras: &[Extra],
        totals: StatedTotals,
        signature: &Signature,
    ) -> Result<SetWriter, SegmentWriteFault>
        requires { All IsSegment (body_rows form lines.now extras.now totals signature.now) }
        ensures { UnlessMemory SegmentWriteFault.Memory result (after_writing (body_rows form lines.now extras.now totals signature.now) self) }
    {
        self.items(form, lines)?
            .extras(extras)?
            .totals(totals)?
            .signature(signature)
    }

    /// Writes the integrity value and the trailer, and hands on the text with the integrity value that it states.
    pub fn seal(self, control: u32) -> Result<(SetText, Check), SegmentWriteFault>
        ensures exact { Gives SegmentWriteFault.Memory (λ sealed. sealed.0) result (text_after (sealing_rows self.text self.count control) self) }
        ensures check { IfOk result (λ sealed. sealed.1 ≡ crc_of self.text) }
        ensures spelled { IfOk result (λ sealed. IsWrittenText sealed.0) }
    {
        let check = Check::new(check_of(self.segments.written()));
        let writer = self.sealing(check, control)?;
        Ok((writer.segments.finish(), check))
    }

    fn sealing(self, check: Check, control: u32) -> Result<SetWriter, SegmentWriteFault>
        requires { check ≡ crc_of self.text }
        ensures { UnlessMemory SegmentWriteFault.Memory result (after_writing (sealing_rows self.text self.count control) self) }
    {
        let count = write_plain_number(self.count as u64 + 2);
        let control = control_digits(control);
        self.row(b"G85", &[write_check(check).as_slice()], b"")?
            .row(b"SE", &[count.as_slice(), control.as_slice()], b"")
    }
}
