//! What is printed of an entry of a journal.

ghost use Rattle.std.specs.Prelude.{◌≡◌, ◌++◌, OnOk};
ghost use Rattle.dsd_record.specs.declared.set_view.SetView.TheVariants as sets;
ghost use Rattle.dex_cli.specs.JournalSummaries.{told_of};
ghost use Rattle.dex_cli.specs.Texts.{deed_text, entry_line, kind_text, set_name_text, standing_text, words_text};
ghost use Rattle.end_report.specs.Lines.{both};

use adjustment_895::Answer895;
use base_record_894::Base;
use dsd_journal::EntryKind;
use dsd_record::SetView;
use dsd_values::{Check, DeliveryNumber, Level, Word, write_check};
use end_report::{put, put_bytes, put_named, put_number, put_pair};
use std::alloc::{AllocError, Global};
use transaction_set::Seal;

/// What is printed of an entry of a journal.
#[derive(Debug, Drop)]
pub struct EntrySummary {
    pub kind: EntryKind,
    pub control: Word,
    pub number: DeliveryNumber,
    pub form: EntryForm,
    /// The integrity value of its set.
    pub check: Check,
}

/// What the set of an entry does.
#[derive(Clone, Copy, Debug)]
pub enum EntryForm {
    /// Set 894: it proposes a delivery.
    Base,
    /// Set 895 with lines: it proposes a version of this level.
    Adjustment(Level),
    /// Set 895 without lines: it accepts the proposal of this level and integrity value.
    Acceptance(Level, Check),
}

/// The summary of an entry with this set.
pub fn summary_with(kind: EntryKind, set: SetView) -> EntrySummary
    ensures { result ≡ told_of kind set }
{
    match set {
        SetView::Base(base, seal) => of_base(kind, &base, seal),
        SetView::Answer(answer, seal) => of_answer(kind, &answer, seal),
    }
}

fn of_base(kind: EntryKind, base: &Base, seal: Seal) -> EntrySummary
    ensures { result ≡ told_of kind (sets.Base base.now seal) }
{
    EntrySummary {
        kind,
        control: seal.control,
        number: base.number().copy(),
        form: EntryForm::Base,
        check: seal.check,
    }
}

fn of_answer(kind: EntryKind, answer: &Answer895, seal: Seal) -> EntrySummary
    ensures { result ≡ told_of kind (sets.Answer answer.now seal) }
{
    let form = if answer.is_acknowledgement() {
        EntryForm::Acceptance(answer.level(), answer.check())
    } else {
        EntryForm::Adjustment(answer.level())
    };
    EntrySummary {
        kind,
        control: seal.control,
        number: answer.number().copy(),
        form,
        check: seal.check,
    }
}

/// Prints the line of an entry with this number.
#[tactic(auto, unfolding(crate::specs::Texts::entry_line))]
pub fn put_entry(
    alloc: Global,
    out: &mut Vec<u8>,
    number: u64,
    entry: &EntrySummary,
) -> Result<(), AllocError>
    ensures { OnOk result (out.new.items ≡ out.old.items ++ entry_line number entry.now) }
{
    put_number(alloc, out, number)?;
    put(out, " ")?;
    put_words(alloc, out, entry)?;
    put(out, " ")?;
    put_pair(out, "CHECK", write_check(entry.check).as_slice())
}

/// Prints the words of an entry between its number and its integrity value.
#[tactic(auto, unfolding(crate::specs::Texts::words_text))]
fn put_words(alloc: Global, out: &mut Vec<u8>, entry: &EntrySummary) -> Result<(), AllocError>
    ensures { OnOk result (out.new.items ≡ out.old.items ++ words_text entry.now) }
{
    put_deed(out, entry)?;
    put(out, " ")?;
    put_both(out, entry.control.as_slice(), entry.number.as_slice())?;
    put(out, " ")?;
    put_standing(alloc, out, entry.form)
}

/// Prints what was done, and with which set.
fn put_deed(out: &mut Vec<u8>, entry: &EntrySummary) -> Result<(), AllocError>
    ensures { OnOk result (out.new.items ≡ out.old.items ++ deed_text entry.now) }
{
    put(out, kind_name(entry.kind))?;
    put(out, " ")?;
    put(out, set_name(entry.form))
}

/// Two texts with a space between them.
fn put_both(out: &mut Vec<u8>, first: &[u8], second: &[u8]) -> Result<(), AllocError>
    ensures { OnOk result (out.new.items ≡ out.old.items ++ both first.now second.now) }
{
    put_bytes(out, first)?;
    put(out, " ")?;
    put_bytes(out, second)
}

fn kind_name(kind: EntryKind) -> &'static str
    ensures { result.now ≡ kind_text kind }
{
    match kind {
        EntryKind::Signed => "SIGNED",
        EntryKind::Took => "TOOK",
    }
}

fn set_name(form: EntryForm) -> &'static str
    ensures { result.now ≡ set_name_text form }
{
    match form {
        EntryForm::Base => "894",
        EntryForm::Adjustment(_) => "895",
        EntryForm::Acceptance(_, _) => "895",
    }
}

/// Prints the level of a proposal, or which proposal is accepted.
fn put_standing(alloc: Global, out: &mut Vec<u8>, form: EntryForm) -> Result<(), AllocError>
    ensures { OnOk result (out.new.items ≡ out.old.items ++ standing_text form) }
{
    match form {
        EntryForm::Base => put(out, "LEVEL 0"),
        EntryForm::Adjustment(level) => put_named(alloc, out, "LEVEL", u64::from(level.get())),
        EntryForm::Acceptance(level, check) => {
            put_named(alloc, out, "ACCEPTS", u64::from(level.get()))?;
            put(out, " ")?;
            put_bytes(out, write_check(check).as_slice())
        }
    }
}
