//! What is printed of a set.

ghost use Rattle.std.specs.Prelude.{◌≡◌, ◌++◌, OnOk};
ghost use Rattle.dsd_record.specs.declared.set_view.SetView.TheVariants as sets;
ghost use Rattle.dex_cli.specs.Summaries.{summary_of as told_of};
ghost use Rattle.dex_cli.specs.Texts.{day_behind, delivery_text, form_text, name_text, set_text, totals_text};
ghost use Rattle.end_report.specs.Lines.{line as ended};

use adjustment_895::Answer895;
use base_record_894::Base;
use dsd_record::SetView;
use dsd_values::{Cents, Check, Day, DeliveryNumber, Flag, Level, Word, write_check, write_day};
use end_report::{flag, put, put_bytes, put_count, put_pair};
use std::alloc::{AllocError, Global};
use transaction_set::Seal;

/// What is printed of a set.
#[derive(Debug, Drop)]
pub struct SetSummary {
    pub control: Word,
    pub flag: Flag,
    pub number: DeliveryNumber,
    pub form: SetForm,
    /// How many lines it has.
    pub lines: usize,
    pub quantity: u32,
    pub amount: Cents,
}

/// What is printed of one of the sets alone.
#[derive(Clone, Copy, Debug)]
pub enum SetForm {
    /// Set 894, of a delivery on this day.
    Delivery(Day),
    /// Set 895, of this level, in answer to the set with this integrity value.
    Answer(Level, Check),
}

/// The summary of a set.
pub fn summary_of(set: SetView) -> SetSummary
    ensures { result ≡ told_of set }
{
    match set {
        SetView::Base(base, seal) => of_base(&base, seal),
        SetView::Answer(answer, seal) => of_answer(&answer, seal),
    }
}

fn of_base(base: &Base, seal: Seal) -> SetSummary
    ensures { result ≡ told_of (sets.Base base.now seal) }
{
    SetSummary {
        control: seal.control,
        flag: base.flag(),
        number: base.number().copy(),
        form: SetForm::Delivery(base.day()),
        lines: base.lines().as_slice().len(),
        quantity: base.quantity(),
        amount: base.amount(),
    }
}

fn of_answer(answer: &Answer895, seal: Seal) -> SetSummary
    ensures { result ≡ told_of (sets.Answer answer.now seal) }
{
    SetSummary {
        control: seal.control,
        flag: answer.flag(),
        number: answer.number().copy(),
        form: SetForm::Answer(answer.level(), answer.check()),
        lines: answer.lines().as_slice().len(),
        quantity: answer.quantity(),
        amount: answer.amount(),
    }
}

/// Prints the lines of a set.
#[tactic(auto, unfolding(crate::specs::Texts::set_text))]
pub fn put_set(alloc: Global, out: &mut Vec<u8>, set: &SetSummary) -> Result<(), AllocError>
    ensures { OnOk result (out.new.items ≡ out.old.items ++ set_text set.now) }
{
    put_pair(out, name(set.form), set.control.as_slice())?;
    put_delivery(out, set)?;
    put_form(alloc, out, set.form)?;
    put_totals(alloc, out, set)
}

fn name(form: SetForm) -> &'static str
    ensures { result.now ≡ name_text form }
{
    match form {
        SetForm::Delivery(_) => "SET 894",
        SetForm::Answer(_, _) => "SET 895",
    }
}

/// Prints the line of the delivery, with the day where the set states it.
fn put_delivery(out: &mut Vec<u8>, set: &SetSummary) -> Result<(), AllocError>
    ensures { OnOk result (out.new.items ≡ out.old.items ++ ended (delivery_text set.now)) }
{
    put(out, "DELIVERY ")?;
    put(out, flag(set.flag))?;
    put(out, " ")?;
    put_bytes(out, set.number.as_slice())?;
    put_day(out, set.form)?;
    put(out, "\n")
}

/// Prints the day of a delivery.
fn put_day(out: &mut Vec<u8>, form: SetForm) -> Result<(), AllocError>
    ensures { OnOk result (out.new.items ≡ out.old.items ++ day_behind form) }
{
    match form {
        SetForm::Delivery(day) => {
            put(out, " ")?;
            put_bytes(out, write_day(day).as_slice())
        }
        SetForm::Answer(_, _) => Ok(()),
    }
}

/// Prints the lines that both sets end with.
fn put_totals(alloc: Global, out: &mut Vec<u8>, set: &SetSummary) -> Result<(), AllocError>
    ensures { OnOk result (out.new.items ≡ out.old.items ++ totals_text set.now) }
{
    put_count(alloc, out, "LINES", set.lines as u64)?;
    put_count(alloc, out, "QUANTITY", u64::from(set.quantity))?;
    put_count(alloc, out, "AMOUNT", set.amount.get())
}

/// Prints the lines that an answer has besides.
fn put_form(alloc: Global, out: &mut Vec<u8>, form: SetForm) -> Result<(), AllocError>
    ensures { OnOk result (out.new.items ≡ out.old.items ++ form_text form) }
{
    match form {
        SetForm::Delivery(_) => Ok(()),
        SetForm::Answer(level, check) => {
            put_count(alloc, out, "LEVEL", u64::from(level.get()))?;
            put_pair(out, "ANSWERS", write_check(check).as_slice())
        }
    }
}
