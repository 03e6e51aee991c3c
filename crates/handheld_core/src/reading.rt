//! Reading drafts line by line.

ghost use Rattle.std.specs.Prelude.{◌≡◌, ◌<◌, [], ◌∷◌, ◌++◌, List, Ok, false, length};
ghost use Rattle.dsd_values.specs.Answers.{UnlessMemory};
ghost use Rattle.handheld_core.specs.DraftTexts.{is_known};
ghost use Rattle.handheld_core.specs.declared.drafts.TheConstants.{MOST_DRAFTS as MOST};
ghost use Rattle.handheld_core.specs.declared.draft.Draft.{Draft};
ghost use Rattle.plain_lines.specs.Refusing.{Steps};
ghost use Rattle.handheld_core.specs.Reading.{IsBegun, base_of, draft_step, finished, going_on as with_open, head_in, in_part, in_rows, is_between as is_whole, nothing, one_allowance, one_item, one_row, opened, priced, with_counter, with_end, with_row};
ghost use Rattle.handheld_core.specs.declared.reading.Part.TheVariants as parts;

use crate::draft::Draft;
use crate::draft_list::DraftList;
use crate::drafts::{Drafts, MOST_DRAFTS};
use crate::rows::DraftRows;
use base_record_894::{Base, BaseHead};
use dsd_record::{DraftFault, DraftReason};
use dsd_values::{
    Cents, Lines, Signature, read_cents, read_day, read_delivery_number, read_flag, read_word,
};
use plain_lines::{CountedLines, PlainLine, misplaced, read_signature, refuse, value};
use std::alloc::Global;
use std::marker::Model;
use std::mem;

/// What the last row of a draft was.
#[derive(Clone, Copy, Debug, PartialEq, Eq)]
enum Stage {
    /// None, or an allowance of the record.
    Record,
    /// An item, or an allowance of one.
    Item,
    Counter,
}

/// A draft whose rows may go on.
#[derive(Debug, Drop)]
struct OpenDraft {
    head: BaseHead,
    signature: Signature,
    tolerance: Cents,
    rows: DraftRows,
    counters: CountedLines,
    stage: Stage,
}

/// The part of a draft that is not whole.
#[derive(Debug, Drop)]
enum Part {
    Between,
    Headed(BaseHead),
    Signed(BaseHead, Signature),
    Open(OpenDraft),
}

/// Drafts so far. Each line is taken by itself, so that drafts can stand among other lines.
#[derive(Debug, Drop)]
pub struct DraftsSoFar {
    done: DraftList,
    part: Part,
}

impl Model for DraftsSoFar {
    ghost use Rattle.handheld_core.specs.Reading.{IsRightPart, SoFar};

    ghost Value = { SoFar };

    ghost view = { λ so_far. record { done = so_far.done; part = so_far.part } };

    ghost invariant = { λ so_far. IsRightPart so_far.part so_far.done };
}

impl DraftsSoFar {
    pub fn new(alloc: Global) -> DraftsSoFar
        ensures { result ≡ nothing }
    {
        DraftsSoFar {
            done: DraftList::new(alloc),
            part: Part::Between,
        }
    }

    /// Whether no draft has begun that is not whole.
    pub fn is_between(&self) -> bool
        ensures { result ≡ is_whole self.now.part }
    {
        matches!(self.part, Part::Between)
    }

    /// Takes one more line.
    #[tactic(auto, unfolding(crate::specs::Reading::draft_step))]
    fn take_line(self, alloc: Global, line: &PlainLine<'_>) -> Result<DraftsSoFar, DraftFault>
        ensures { UnlessMemory DraftFault.Memory result (draft_step self line.now) }
    {
        let DraftsSoFar { done, part } = self;
        match part {
            Part::Between => begin(done, line),
            Part::Headed(head) => sign(done, head, line),
            Part::Signed(head, signature) => tolerate(alloc, done, head, signature, line),
            Part::Open(draft) => go_on(alloc, done, draft, line),
        }
    }

    /// Takes one more line. A row goes into the open draft where that is, and nothing moves.
    #[tactic(auto, unfolding(crate::specs::Reading::draft_step))]
    pub fn take(&mut self, alloc: Global, line: &PlainLine<'_>) -> Result<(), DraftFault>
        ensures { Steps result self.new (draft_step self.old line.now) }
    {
        match &mut self.part {
            Part::Open(draft) if !line.leads(b"END") => take_row(alloc, draft, line),
            _ => self.take_moved(alloc, line),
        }
    }

    /// Takes one more line, whatever it is.
    fn take_moved(&mut self, alloc: Global, line: &PlainLine<'_>) -> Result<(), DraftFault>
        ensures { Steps result self.new (draft_step self.old line.now) }
    {
        let so_far = mem::replace(self, DraftsSoFar::new(alloc));
        match so_far.take_line(alloc, line) {
            Ok(next) => {
                *self = next;
                Ok(())
            }
            Err(fault) => Err(fault),
        }
    }

    /// The drafts, where the text does not end inside one; it ends at this place.
    pub fn finish(self, alloc: Global, end: usize) -> Result<Drafts, DraftFault>
        ensures { UnlessMemory DraftFault.Memory result (finished end self) }
    {
        let DraftsSoFar { done, part } = self;
        match part {
            Part::Between => Ok(Drafts::share(alloc, done)?),
            _ => Err(DraftFault::Refused {
                place: end,
                reason: DraftReason::Line,
            }),
        }
    }
}

/// Takes the head of a draft.
fn begin(done: DraftList, line: &PlainLine<'_>) -> Result<DraftsSoFar, DraftFault>
    ensures { result ≡ in_part parts.Between done line.now }
{
    if let Some(reason) = misplaced(line, b"DRAFT", 8) {
        return Err(refuse(line, reason));
    }
    if done.len() >= MOST_DRAFTS {
        return Err(refuse(line, DraftReason::Limit));
    }
    let head = read_head(line)?;
    if done.knows(&head.number) {
        return Err(refuse(line, DraftReason::Twice));
    }
    Ok(DraftsSoFar {
        done,
        part: Part::Headed(head),
    })
}

/// What the seven words behind the leading one say.
fn read_head(line: &PlainLine<'_>) -> Result<BaseHead, DraftFault>
    ensures { result ≡ head_in line.now }
{
    let number = value(line, 1, read_delivery_number(line.word(1)))?;
    let flag = value(line, 2, read_flag(line.word(2)))?;
    let day = value(line, 3, read_day(line.word(3)))?;
    let receiver_duns = value(line, 4, read_word(line.word(4)))?;
    let receiver_place = value(line, 5, read_word(line.word(5)))?;
    let supplier_duns = value(line, 6, read_word(line.word(6)))?;
    let supplier_place = value(line, 7, read_word(line.word(7)))?;
    Ok(BaseHead {
        flag,
        number,
        day,
        receiver_duns,
        receiver_place,
        supplier_duns,
        supplier_place,
    })
}

/// Takes what the delivery is signed with.
fn sign(done: DraftList, head: BaseHead, line: &PlainLine<'_>) -> Result<DraftsSoFar, DraftFault>
    requires { IsBegun head done }
    ensures { result ≡ in_part (parts.Headed head) done line.now }
{
    if let Some(reason) = misplaced(line, b"SIGN", 2) {
        return Err(refuse(line, reason));
    }
    let signature = read_signature(line)?;
    Ok(DraftsSoFar {
        done,
        part: Part::Signed(head, signature),
    })
}

/// Takes the tolerance.
fn tolerate(
    alloc: Global,
    done: DraftList,
    head: BaseHead,
    signature: Signature,
    line: &PlainLine<'_>,
) -> Result<DraftsSoFar, DraftFault>
    requires { IsBegun head done }
    ensures { result ≡ in_part (parts.Signed head signature) done line.now }
{
    if let Some(reason) = misplaced(line, b"TOLERANCE", 2) {
        return Err(refuse(line, reason));
    }
    let tolerance = value(line, 1, read_cents(line.word(1)))?;
    Ok(DraftsSoFar {
        done,
        part: Part::Open(opened_draft(alloc, head, signature, tolerance)),
    })
}

/// A draft of which no row has come.
fn opened_draft(alloc: Global, head: BaseHead, signature: Signature, tolerance: Cents) -> OpenDraft
    ensures { result ≡ opened head signature tolerance }
{
    OpenDraft {
        head,
        signature,
        tolerance,
        rows: DraftRows::new(alloc),
        counters: CountedLines::new(alloc),
        stage: Stage::Record,
    }
}

/// Takes a row, or the end of a draft.
#[tactic(auto, using(crate::proofs::Ended::end_is_no_counter))]
fn go_on(
    alloc: Global,
    done: DraftList,
    mut draft: OpenDraft,
    line: &PlainLine<'_>,
) -> Result<DraftsSoFar, DraftFault>
    requires { IsBegun draft.head done }
    ensures { UnlessMemory DraftFault.Memory result (in_rows done draft line.now) }
{
    if line.leads(b"END") {
        return end_draft(alloc, done, draft, line);
    }
    match take_row(alloc, &mut draft, line) {
        Ok(()) => Ok(going_on(done, draft)),
        Err(fault) => Err(fault),
    }
}

/// Takes a row.
fn take_row(alloc: Global, draft: &mut OpenDraft, line: &PlainLine<'_>) -> Result<(), DraftFault>
    ensures row { (done : List Draft) → Steps result (with_open done draft.new) (one_row done draft.old line.now) }
    ensures head { draft.new.head ≡ draft.old.head }
{
    if line.leads(b"COUNTER") {
        take_counter(draft, line)
    } else {
        take_priced_row(alloc, draft, line)
    }
}

/// Takes an item or an allowance. Behind a counter neither stands.
fn take_priced_row(
    alloc: Global,
    draft: &mut OpenDraft,
    line: &PlainLine<'_>,
) -> Result<(), DraftFault>
    ensures row { (done : List Draft) → Steps result (with_open done draft.new) (with_row draft.old.stage done draft.old line.now) }
    ensures head { draft.new.head ≡ draft.old.head }
{
    if matches!(draft.stage, Stage::Counter) {
        Err(refuse(line, DraftReason::Line))
    } else if line.leads(b"ITEM") {
        take_item(alloc, draft, line)
    } else {
        take_allowance(alloc, draft, line)
    }
}

/// Takes a counter.
fn take_counter(draft: &mut OpenDraft, line: &PlainLine<'_>) -> Result<(), DraftFault>
    ensures row { (done : List Draft) → Steps result (with_open done draft.new) (with_counter done draft.old line.now) }
    ensures head { draft.new.head ≡ draft.old.head }
{
    if let Some(reason) = misplaced(line, b"COUNTER", 4) {
        return Err(refuse(line, reason));
    }
    match draft.counters.take_line(line) {
        Ok(()) => {
            draft.stage = Stage::Counter;
            Ok(())
        }
        Err(fault) => Err(fault),
    }
}

/// Takes an item.
fn take_item(alloc: Global, draft: &mut OpenDraft, line: &PlainLine<'_>) -> Result<(), DraftFault>
    ensures row { (done : List Draft) → Steps result (with_open done draft.new) (one_item done draft.old line.now) }
    ensures head { draft.new.head ≡ draft.old.head }
{
    if let Some(reason) = misplaced(line, b"ITEM", 6) {
        return Err(refuse(line, reason));
    }
    match draft.rows.take_item(alloc, line) {
        Ok(()) => {
            draft.stage = Stage::Item;
            Ok(())
        }
        Err(fault) => Err(fault),
    }
}

/// Takes an allowance, of the last item where one has come.
fn take_allowance(
    alloc: Global,
    draft: &mut OpenDraft,
    line: &PlainLine<'_>,
) -> Result<(), DraftFault>
    ensures row { (done : List Draft) → Steps result (with_open done draft.new) (one_allowance done draft.old line.now) }
    ensures head { draft.new.head ≡ draft.old.head }
{
    if let Some(reason) = misplaced(line, b"ALLOW", 5) {
        return Err(refuse(line, reason));
    }
    let in_line = !matches!(draft.stage, Stage::Record);
    match draft.rows.take_allowance(alloc, in_line, line) {
        Ok(()) => Ok(()),
        Err(fault) => Err(fault),
    }
}

/// Takes the end of a draft, whose rows have a price.
fn end_draft(
    alloc: Global,
    done: DraftList,
    draft: OpenDraft,
    line: &PlainLine<'_>,
) -> Result<DraftsSoFar, DraftFault>
    requires { IsBegun draft.head done }
    ensures { UnlessMemory DraftFault.Memory result (with_end done draft line.now) }
{
    if let Some(reason) = misplaced(line, b"END", 1) {
        return Err(refuse(line, reason));
    }
    price_draft(alloc, done, draft, line)
}

/// Prices the rows of a draft that is whole.
fn price_draft(
    alloc: Global,
    done: DraftList,
    draft: OpenDraft,
    line: &PlainLine<'_>,
) -> Result<DraftsSoFar, DraftFault>
    requires { IsBegun draft.head done }
    ensures { UnlessMemory DraftFault.Memory result (priced done draft line.now (base_of draft)) }
{
    let OpenDraft {
        head,
        signature,
        tolerance,
        rows,
        counters,
        ..
    } = draft;
    let (extras, lines) = rows.into_parts();
    match Base::new(alloc, head, without_spare(alloc, lines), extras, signature) {
        Ok(base) => finish_draft(
            done,
            Draft {
                base,
                tolerance,
                counters,
            },
        ),
        Err(_) => Err(refuse(line, DraftReason::Price)),
    }
}

/// The same lines in just the room that they need, where there is memory to make it: drafts stay for long.
fn without_spare(alloc: Global, lines: Lines) -> Lines
    ensures { result ≡ lines }
{
    match lines.try_copy(alloc) {
        Ok(copy) => copy,
        Err(_) => lines,
    }
}

/// Adds a draft that is whole.
fn finish_draft(mut done: DraftList, draft: Draft) -> Result<DraftsSoFar, DraftFault>
    requires fresh { is_known draft.base.number done ≡ false }
    requires room { length done < MOST }
    ensures { UnlessMemory DraftFault.Memory result (Ok (record { done = done ++ draft ∷ []; part = parts.Between })) }
{
    match done.push(draft) {
        Ok(()) => Ok(DraftsSoFar {
            done,
            part: Part::Between,
        }),
        Err(_) => Err(DraftFault::Memory),
    }
}

/// Drafts of which the last goes on.
fn going_on(done: DraftList, draft: OpenDraft) -> DraftsSoFar
    requires { IsBegun draft.head done }
    ensures { result ≡ with_open done draft }
{
    DraftsSoFar {
        done,
        part: Part::Open(draft),
    }
}
