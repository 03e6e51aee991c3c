//! Reading a script line by line.

ghost use Rattle.std.specs.Prelude.{◌≡◌, true};
ghost use Rattle.dsd_values.specs.Answers.{UnlessMemory};
ghost use Rattle.plain_lines.specs.Refusing.{Steps};
ghost use Rattle.handheld_core.specs.Reading.{is_between as is_between_drafts};
ghost use Rattle.receiver_core.specs.Reading.{is_between as is_between_counts};
ghost use Rattle.cable_world.specs.Reading.{counting, counts_begun, drafting, drafts_begun, event_added, events_begun, finished, header_at, leaves, playing, script_step, with_handheld, with_receiver};
ghost use Rattle.cable_world.specs.ScriptTexts.{end_word as word_of_end};
ghost use Rattle.cable_world.specs.declared.reading.ScriptSoFar.TheVariants as parts;

use crate::deed::Deed;
use crate::event_line::read_event;
use crate::events::{Events, MOST_EVENTS};
use crate::script::{Ends, Script};
use dsd_journal::Header;
use dsd_record::{DraftFault, DraftReason};
use dsd_values::{Role, read_comm_id};
use handheld_core::{Drafts, DraftsSoFar};
use plain_lines::{PlainLine, misplaced, refuse, value};
use receiver_core::CountsSoFar;
use std::alloc::Global;
use std::mem;

/// What a script has said so far.
#[derive(Debug, Drop)]
pub(crate) enum ScriptSoFar {
    Nothing,
    /// Whose the handheld's journal is.
    Handheld(Header),
    /// Whose both journals are.
    Named(Ends),
    /// Drafts, of which more may come.
    Drafting(Ends, DraftsSoFar),
    /// All drafts, and counts, of which more may come.
    Counting(Ends, Drafts, CountsSoFar),
    /// A script that more events may follow.
    Playing(Script),
}

impl ScriptSoFar {
    /// Takes one more line. A line of a part that goes on is taken by that part, and nothing moves.
    #[tactic(auto, unfolding(crate::specs::Reading::script_step))]
    pub(crate) fn take(&mut self, alloc: Global, line: &PlainLine<'_>) -> Result<(), DraftFault>
        ensures { Steps result self.new (script_step self.old line.now) }
    {
        if self.is_left_by(line) {
            return self.take_moved(alloc, line);
        }
        match self {
            ScriptSoFar::Drafting(_, drafts) => drafts.take(alloc, line),
            ScriptSoFar::Counting(_, _, counts) => counts.take(alloc, line),
            ScriptSoFar::Playing(script) => take_event(alloc, script, line),
            _ => self.take_moved(alloc, line),
        }
    }

    /// Whether the drafts or the counts have an end at this line, behind which the next part stands.
    fn is_left_by(&self, line: &PlainLine<'_>) -> bool
        ensures { result ≡ leaves self.now line.now }
    {
        match self {
            ScriptSoFar::Drafting(_, drafts) => drafts.is_between() && line.leads(b"COUNTS"),
            ScriptSoFar::Counting(_, _, counts) => counts.is_between() && line.leads(b"EVENTS"),
            _ => false,
        }
    }

    /// Takes one more line, whatever it is.
    fn take_moved(&mut self, alloc: Global, line: &PlainLine<'_>) -> Result<(), DraftFault>
        ensures { Steps result self.new (script_step self.old line.now) }
    {
        let so_far = mem::replace(self, ScriptSoFar::Nothing);
        match so_far.take_line(alloc, line) {
            Ok(next) => {
                *self = next;
                Ok(())
            }
            Err(fault) => Err(fault),
        }
    }

    #[tactic(auto, unfolding(crate::specs::Reading::script_step))]
    fn take_line(self, alloc: Global, line: &PlainLine<'_>) -> Result<ScriptSoFar, DraftFault>
        ensures { UnlessMemory DraftFault.Memory result (script_step self line.now) }
    {
        match self {
            ScriptSoFar::Nothing => take_handheld(line),
            ScriptSoFar::Handheld(handheld) => take_receiver(handheld, line),
            ScriptSoFar::Named(ends) => begin_drafts(alloc, ends, line),
            ScriptSoFar::Drafting(ends, drafts) => take_draft_line(alloc, ends, drafts, line),
            ScriptSoFar::Counting(ends, drafts, counts) => {
                take_count_line(alloc, ends, drafts, counts, line)
            }
            ScriptSoFar::Playing(script) => play_on(alloc, script, line),
        }
    }

    /// The script, where the text does not end before its events; it ends at this place.
    pub(crate) fn finish(self, end: usize) -> Result<Script, DraftFault>
        ensures { result ≡ finished end self }
    {
        match self {
            ScriptSoFar::Playing(script) => Ok(script),
            _ => Err(DraftFault::Refused {
                place: end,
                reason: DraftReason::Line,
            }),
        }
    }
}

/// Takes whose the handheld's journal is.
fn take_handheld(line: &PlainLine<'_>) -> Result<ScriptSoFar, DraftFault>
    ensures { result ≡ with_handheld line.now }
{
    let handheld = read_header(Role::Supplier, line)?;
    Ok(ScriptSoFar::Handheld(handheld))
}

/// Takes whose the receiver's journal is.
fn take_receiver(handheld: Header, line: &PlainLine<'_>) -> Result<ScriptSoFar, DraftFault>
    ensures { result ≡ with_receiver handheld line.now }
{
    let receiver = read_header(Role::Receiver, line)?;
    Ok(ScriptSoFar::Named(Ends { handheld, receiver }))
}

/// Whose the journal of this end is: its own communication id, and then its peer's.
fn read_header(role: Role, line: &PlainLine<'_>) -> Result<Header, DraftFault>
    ensures { result ≡ header_at role line.now }
{
    if let Some(reason) = misplaced(line, end_word(role), 3) {
        return Err(refuse(line, reason));
    }
    let own = value(line, 1, read_comm_id(line.word(1)))?;
    let peer = value(line, 2, read_comm_id(line.word(2)))?;
    Ok(Header { role, own, peer })
}

fn end_word(role: Role) -> &'static [u8]
    ensures { result.now ≡ word_of_end role }
{
    match role {
        Role::Supplier => b"HANDHELD",
        Role::Receiver => b"RECEIVER",
    }
}

/// Takes the line behind which the drafts stand.
fn begin_drafts(alloc: Global, ends: Ends, line: &PlainLine<'_>) -> Result<ScriptSoFar, DraftFault>
    ensures { result ≡ drafts_begun ends line.now }
{
    if let Some(reason) = misplaced(line, b"DRAFTS", 1) {
        return Err(refuse(line, reason));
    }
    Ok(ScriptSoFar::Drafting(ends, DraftsSoFar::new(alloc)))
}

/// Takes a line of the drafts, or between two of them the one behind which the counts stand.
fn take_draft_line(
    alloc: Global,
    ends: Ends,
    mut drafts: DraftsSoFar,
    line: &PlainLine<'_>,
) -> Result<ScriptSoFar, DraftFault>
    ensures { UnlessMemory DraftFault.Memory result (drafting ends drafts line.now) }
{
    if drafts.is_between() && line.leads(b"COUNTS") {
        return begin_counts(alloc, ends, drafts, line);
    }
    match drafts.take(alloc, line) {
        Ok(()) => Ok(ScriptSoFar::Drafting(ends, drafts)),
        Err(fault) => Err(fault),
    }
}

fn begin_counts(
    alloc: Global,
    ends: Ends,
    drafts: DraftsSoFar,
    line: &PlainLine<'_>,
) -> Result<ScriptSoFar, DraftFault>
    requires { is_between_drafts drafts.part ≡ true }
    ensures { UnlessMemory DraftFault.Memory result (counts_begun ends drafts.done line.now) }
{
    if let Some(reason) = misplaced(line, b"COUNTS", 1) {
        return Err(refuse(line, reason));
    }
    match drafts.finish(alloc, line.place()) {
        Ok(drafts) => Ok(ScriptSoFar::Counting(ends, drafts, CountsSoFar::new(alloc))),
        Err(fault) => Err(fault),
    }
}

/// Takes a line of the counts, or between two of them the one behind which the events stand.
fn take_count_line(
    alloc: Global,
    ends: Ends,
    drafts: Drafts,
    mut counts: CountsSoFar,
    line: &PlainLine<'_>,
) -> Result<ScriptSoFar, DraftFault>
    ensures { UnlessMemory DraftFault.Memory result (counting ends drafts counts line.now) }
{
    if counts.is_between() && line.leads(b"EVENTS") {
        return begin_events(alloc, ends, drafts, counts, line);
    }
    match counts.take(alloc, line) {
        Ok(()) => Ok(ScriptSoFar::Counting(ends, drafts, counts)),
        Err(fault) => Err(fault),
    }
}

fn begin_events(
    alloc: Global,
    ends: Ends,
    drafts: Drafts,
    counts: CountsSoFar,
    line: &PlainLine<'_>,
) -> Result<ScriptSoFar, DraftFault>
    requires { is_between_counts counts.part ≡ true }
    ensures { UnlessMemory DraftFault.Memory result (events_begun ends drafts counts.done line.now) }
{
    if let Some(reason) = misplaced(line, b"EVENTS", 1) {
        return Err(refuse(line, reason));
    }
    match counts.finish(alloc, line.place()) {
        Ok(counts) => Ok(ScriptSoFar::Playing(Script {
            ends,
            drafts,
            counts,
            events: Events::new(alloc),
        })),
        Err(fault) => Err(fault),
    }
}

/// Takes an event, and goes on.
fn play_on(
    alloc: Global,
    mut script: Script,
    line: &PlainLine<'_>,
) -> Result<ScriptSoFar, DraftFault>
    ensures { UnlessMemory DraftFault.Memory result (playing script line.now) }
{
    match take_event(alloc, &mut script, line) {
        Ok(()) => Ok(ScriptSoFar::Playing(script)),
        Err(fault) => Err(fault),
    }
}

/// Takes an event.
fn take_event(alloc: Global, script: &mut Script, line: &PlainLine<'_>) -> Result<(), DraftFault>
    ensures { Steps result (parts.Playing script.new) (playing script.old line.now) }
{
    let Some(deed) = Deed::of(line) else {
        return Err(refuse(line, DraftReason::Line));
    };
    if !line.has_words(deed.word_count()) {
        return Err(refuse(line, DraftReason::Words));
    }
    add_event(alloc, script, deed, line)
}

/// Adds an event behind the others: there may be only so many.
fn add_event(
    alloc: Global,
    script: &mut Script,
    deed: Deed,
    line: &PlainLine<'_>,
) -> Result<(), DraftFault>
    ensures { Steps result (parts.Playing script.new) (event_added script.old line.now deed) }
{
    if script.events.as_slice().len() >= MOST_EVENTS {
        return Err(refuse(line, DraftReason::Limit));
    }
    let event = read_event(alloc, deed, line)?;
    Ok(script.events.push(event)?)
}
