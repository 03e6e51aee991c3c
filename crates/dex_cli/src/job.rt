//! The top call.

ghost use Rattle.std.specs.Prelude.{◌≡◌, ◌≢◌, ◌⊎◌, ◌+◌, ◌≤◌, ℕ, List, IfOk, IsOk, OnErr, map, string_bytes};
ghost use Rattle.std.specs.Io.KnownBytes.{Appends, Keeps};
ghost use Rattle.dsd_station.specs.Causes.{Rose, TakesUpTo, WritesFront};
ghost use Rattle.dex_cli.specs.Texts.{printed};
ghost use Rattle.dsd_values.specs.declared.role.Role.{Role as RoleValue};
ghost use Rattle.dex_cli.specs.EndWords.{SpellsEnd};
ghost use Rattle.dex_cli.specs.Ends.{IsIdle};
ghost use Rattle.dex_cli.specs.declared.end_words.EndNames.{EndNames as NamesValue};
ghost use Rattle.dex_cli.specs.Verdicts.{read_of, ChecksLine, HasServed, IsUnread, IsChecked, IsComposed, MayCome, status_of};
ghost use Rattle.dex_cli.specs.Words.{AsksEnd, AsksJournal, AsksShow, AsksSource, AsksWorld, IsOfNoJob, Spells};
ghost use Rattle.dex_cli.specs.Formatting.{served_of};
ghost use Rattle.dex_cli.specs.Replaying.{IsToldOfWorld, worlds_of};
ghost use Rattle.dex_cli.specs.Showing.{LooksAt};
ghost use Rattle.dex_cli.specs.declared.verdict.Verdict.{Verdict as VerdictValue};
ghost use Rattle.dex_cli.specs.declared.verdict.Verdict.TheVariants as verdicts;
ghost use Rattle.dex_cli.specs.declared.words.CheckKind.TheVariants as checks;
ghost use Rattle.dex_cli.specs.declared.words.Job.TheVariants as jobs;

use crate::check_set::SetChecking;
use crate::check_text::TextChecking;
use crate::checking::{check_by, too_long};
use crate::fault::WordsFault;
use crate::formatting::make_journal;
use crate::loading::load;
use crate::replaying::replay;
use crate::report::report_of;
use crate::serving::serve_end;
use crate::showing::show_journal;
use crate::status::{NO_MEMORY, SINK_FAILED};
use crate::verdict::Verdict;
use crate::words::{CheckKind, Job, read_words};
use cable_world::World;
use dsd_station::{ReadFault, Sink, Source, Station, read_up_to, write_all};
use dsd_values::Role;
use std::alloc::{AllocError, Global};

/// The most bytes of an input.
pub const INPUT_BYTES: usize = 4_194_304;

/// Does what the words, those after the program's name, say: reads the source, uses the station, writes the text to
/// the sink, and answers the status. A `replay` and a `load` leave the world that they played.
pub fn dex<S: Source, K: Sink, T: Station>(
    alloc: Global,
    words: &[String],
    source: &mut S,
    sink: &mut K,
    station: &mut T,
    world: &mut Option<World>,
) -> u8
    // Every status but two is that of a verdict which may come, and all of its text is written.
    ensures told { result ≢ SINK_FAILED → result ≢ NO_MEMORY → (verdict : VerdictValue)
        × MayCome T.tells (map string_bytes words.now) (read_of S.left S.faults source.old source.new) (served_of T.told T.faults station.old station.new) (worlds_of world.old world.new) verdict
        × (result ≡ status_of verdict) × Appends (K.written sink.old) (K.written sink.new) (printed verdict) }

    // The sink failed, and a first part of such a text is written.
    ensures sink { result ≡ SINK_FAILED → Rose (K.faults sink.old) (K.faults sink.new) × ((verdict : VerdictValue)
        × MayCome T.tells (map string_bytes words.now) (read_of S.left S.faults source.old source.new) (served_of T.told T.faults station.old station.new) (worlds_of world.old world.new) verdict
        × WritesFront (K.written sink.old) (K.written sink.new) (printed verdict)) }

    // Memory was wanting before anything was written. Of the source no more was taken than the limit and one byte, and the
    // station was not used, or its journal is not empty, or a `show` looked at it, or an end used it.
    ensures memory { result ≡ NO_MEMORY → Keeps (K.written sink.old) (K.written sink.new) × TakesUpTo (INPUT_BYTES + 1) (S.left source.old) (S.left source.new)
        × ((station.new ≡ station.old) ⊎ (AsksShow (map string_bytes words.now) ⊎ AsksEnd (map string_bytes words.now) ⊎ ((size : ℕ) × MayCome T.tells (map string_bytes words.now) (read_of S.left S.faults source.old source.new) (served_of T.told T.faults station.old station.new) (worlds_of world.old world.new) (verdicts.NotEmpty size)))) }

    // Words of no job take no memory.
    ensures words { IsOfNoJob (map string_bytes words.now) → result ≢ NO_MEMORY }

    // A check, the job of an end and a `replay` alone read the source, and a job on a journal alone uses the station.
    ensures unread { (AsksSource (map string_bytes words.now) → ⊥) → source.new ≡ source.old }
    ensures idle { (AsksJournal (map string_bytes words.now) → ⊥) → station.new ≡ station.old }

    // A `replay` and a `load` alone leave a world, and where memory is wanting it is that of the script or the route, played, or the one before.
    ensures kept { (AsksWorld (map string_bytes words.now) → ⊥) → world.new ≡ world.old }
    ensures unplayed { result ≡ NO_MEMORY → (world.new ≡ world.old)
        ⊎ ((verdict : VerdictValue) × IsToldOfWorld verdict × MayCome T.tells (map string_bytes words.now) (read_of S.left S.faults source.old source.new) (served_of T.told T.faults station.old station.new) (worlds_of world.old world.new) verdict) }

    // Whatever a `show` answers, it writes nothing: the journal is as it was.
    ensures looked { T.tells → (journal : List ℕ) → Spells (jobs.Show journal) (map string_bytes words.now) → LooksAt journal (T.told station.old) (T.told station.new) }

    // Whatever the job of an end answers: nothing was written or spoken, or each stop since its opening leaves a run of the choices that
    // the whole input says.
    ensures served { T.tells → (role : RoleValue) (names : NamesValue) → SpellsEnd role names (map string_bytes words.now)
        → IsIdle names (T.told station.old) (T.told station.new) ⊎ HasServed role names (read_of S.left S.faults source.old source.new) (T.told station.old) (T.told station.new) }

    ensures source_count { S.faults source.old ≤ S.faults source.new }
    ensures sink_count { K.faults sink.old ≤ K.faults sink.new }
    ensures station_count { T.faults station.old ≤ T.faults station.new }
{
    match verdict_of(alloc, words, source, station, world) {
        Ok(verdict) => print(alloc, &verdict, sink),
        Err(_) => NO_MEMORY,
    }
}

/// Does the job, up to what is printed of it.
fn verdict_of<S: Source, T: Station>(
    alloc: Global,
    words: &[String],
    source: &mut S,
    station: &mut T,
    world: &mut Option<World>,
) -> Result<Verdict, AllocError>
    ensures may { IfOk result (MayCome T.tells (map string_bytes words.now) (read_of S.left S.faults source.old source.new) (served_of T.told T.faults station.old station.new) (worlds_of world.old world.new)) }
    ensures memory { OnErr result ((station.new ≡ station.old) ⊎ AsksShow (map string_bytes words.now) ⊎ AsksEnd (map string_bytes words.now)) }
    ensures taken { OnErr result (TakesUpTo (INPUT_BYTES + 1) (S.left source.old) (S.left source.new)) }
    ensures words { IsOfNoJob (map string_bytes words.now) → IsOk result }
    ensures unread { (AsksSource (map string_bytes words.now) → ⊥) → source.new ≡ source.old }
    ensures idle { (AsksJournal (map string_bytes words.now) → ⊥) → station.new ≡ station.old }
    ensures looked { T.tells → (journal : List ℕ) → Spells (jobs.Show journal) (map string_bytes words.now) → LooksAt journal (T.told station.old) (T.told station.new) }
    ensures served { T.tells → (role : RoleValue) (names : NamesValue) → SpellsEnd role names (map string_bytes words.now)
        → IsIdle names (T.told station.old) (T.told station.new) ⊎ HasServed role names (read_of S.left S.faults source.old source.new) (T.told station.old) (T.told station.new) }
    ensures kept { (AsksWorld (map string_bytes words.now) → ⊥) → world.new ≡ world.old }
    ensures unplayed { OnErr result (world.new ≡ world.old) }
    ensures later { S.faults source.old ≤ S.faults source.new }
    ensures station_count { T.faults station.old ≤ T.faults station.new }
{
    match read_words(alloc, words) {
        Ok(Job::Check(kind)) => check(alloc, kind, source),
        Ok(Job::Format(new)) => Ok(make_journal(&new, station)),
        Ok(Job::Show(journal)) => show_journal(alloc, &journal, station),
        Ok(Job::Handheld(names)) => serve_end(alloc, Role::Supplier, &names, source, station),
        Ok(Job::Receiver(names)) => serve_end(alloc, Role::Receiver, &names, source, station),
        Ok(Job::Replay) => replay(alloc, source, world),
        Ok(Job::Load(count)) => load(alloc, count, world),
        Err(WordsFault::Refused) => Ok(Verdict::Words),
        Err(WordsFault::Memory) => Err(AllocError),
    }
}

/// The verdict of a check on the input that the source gives.
fn check<S: Source>(alloc: Global, kind: CheckKind, source: &mut S) -> Result<Verdict, AllocError>
    ensures told { IfOk result (λ verdict. let read = read_of S.left S.faults source.old source.new in IsUnread read verdict ⊎ IsChecked kind read verdict) }
    ensures taken { OnErr result (TakesUpTo (INPUT_BYTES + 1) (S.left source.old) (S.left source.new)) }
    ensures later { S.faults source.old ≤ S.faults source.new }
{
    match kind {
        CheckKind::Set => check_by(source, SetChecking::new(alloc)),
        CheckKind::Text => check_by(source, TextChecking::new(alloc)),
        CheckKind::Line => check_line(alloc, source),
    }
}

/// The verdict on captured bytes. Each of their frames is printed, so that they are kept.
fn check_line<S: Source>(alloc: Global, source: &mut S) -> Result<Verdict, AllocError>
    ensures told { IfOk result (λ verdict. let read = read_of S.left S.faults source.old source.new in IsUnread read verdict ⊎ IsChecked checks.Line read verdict) }
    ensures taken { OnErr result (TakesUpTo (INPUT_BYTES + 1) (S.left source.old) (S.left source.new)) }
    ensures later { S.faults source.old ≤ S.faults source.new }
{
    match read_up_to(alloc, source, INPUT_BYTES + 1) {
        Ok(input) => Ok(judge_line(input)),
        Err(ReadFault::Failed) => Ok(Verdict::SourceFault),
        Err(ReadFault::Memory) => Err(AllocError),
    }
}

/// The verdict on captured bytes, which are refused where they are longer than an input may be.
fn judge_line(input: Vec<u8>) -> Verdict
    ensures { ChecksLine input.items result }
{
    if input.len() > INPUT_BYTES {
        return too_long();
    }
    Verdict::Line(input)
}

/// Writes the text of a verdict, and answers the status.
fn print<K: Sink>(alloc: Global, verdict: &Verdict, sink: &mut K) -> u8
    ensures told { result ≢ SINK_FAILED → result ≢ NO_MEMORY → (result ≡ status_of verdict.now) × Appends (K.written sink.old) (K.written sink.new) (printed verdict.now) }
    ensures sink { result ≡ SINK_FAILED → Rose (K.faults sink.old) (K.faults sink.new) × WritesFront (K.written sink.old) (K.written sink.new) (printed verdict.now) }
    ensures memory { result ≡ NO_MEMORY → Keeps (K.written sink.old) (K.written sink.new) × IsComposed verdict.now }
    ensures count { K.faults sink.old ≤ K.faults sink.new }
{
    let report = match report_of(alloc, verdict) {
        Ok(report) => report,
        Err(_) => return NO_MEMORY,
    };
    match write_all(sink, report.text.as_slice()) {
        Ok(()) => report.status,
        Err(_) => SINK_FAILED,
    }
}
