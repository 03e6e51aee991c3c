//! `handheld` and `receiver`: from the source to an end that runs by it.

ghost use Rattle.std.specs.Prelude.{◌≡◌, ◌⊎◌, ◌+◌, ◌≤◌, ◌<◌, IfOk, OnErr, length};
ghost use Rattle.dsd_station.specs.Causes.{TakesUpTo};
ghost use Rattle.dex_cli.specs.Ends.{IsIdle};
ghost use Rattle.dex_cli.specs.Formatting.{served_of};
ghost use Rattle.dex_cli.specs.Verdicts.{HasServed, RunsBy, ServesEnd, ServesInput, read_of};

use crate::end_job::run_end;
use crate::end_words::EndNames;
use crate::job::INPUT_BYTES;
use crate::refusal::{Reason, Refusal};
use crate::verdict::Verdict;
use dsd_record::{DraftFault, DraftReason};
use dsd_station::{ReadFault, Source, Station, read_up_to};
use dsd_values::Role;
use handheld_core::Drafts;
use receiver_core::Counts;
use std::alloc::{AllocError, Global};
use transaction_set::SetReason;

/// Reads the choices of an end to the end of the source, and runs it. The station is not used where they are refused.
pub fn serve_end<S: Source, T: Station>(
    alloc: Global,
    role: Role,
    names: &EndNames,
    source: &mut S,
    station: &mut T,
) -> Result<Verdict, AllocError>
    ensures told { IfOk result (ServesEnd T.tells role names.now (read_of S.left S.faults source.old source.new) (served_of T.told T.faults station.old station.new)) }
    ensures taken { OnErr result (TakesUpTo (INPUT_BYTES + 1) (S.left source.old) (S.left source.new)) }
    // Whatever it answers: nothing was written or spoken, or each stop leaves a run.
    ensures left { T.tells → IsIdle names.now (T.told station.old) (T.told station.new) ⊎ HasServed role names.now (read_of S.left S.faults source.old source.new) (T.told station.old) (T.told station.new) }
    ensures later { S.faults source.old ≤ S.faults source.new }
    ensures station_count { T.faults station.old ≤ T.faults station.new }
{
    match read_up_to(alloc, source, INPUT_BYTES + 1) {
        Ok(input) => serve_input(alloc, role, names, &input, station),
        Err(ReadFault::Failed) => Ok(Verdict::SourceFault),
        Err(ReadFault::Memory) => Err(AllocError),
    }
}

/// Runs an end by an input, which is refused where it is longer than any may be.
fn serve_input<T: Station>(
    alloc: Global,
    role: Role,
    names: &EndNames,
    input: &[u8],
    station: &mut T,
) -> Result<Verdict, AllocError>
    ensures told { IfOk result (ServesInput T.tells role names.now input.now (served_of T.told T.faults station.old station.new)) }
    ensures left { T.tells → IsIdle names.now (T.told station.old) (T.told station.new) ⊎ RunsBy role names.now input.now (T.told station.old) (T.told station.new) }
    ensures later { T.faults station.old ≤ T.faults station.new }
{
    if input.len() > INPUT_BYTES {
        return Ok(Verdict::Refused(Refusal {
            place: INPUT_BYTES,
            reason: Reason::Set(SetReason::Limit),
        }));
    }
    match role {
        Role::Supplier => run_handheld(alloc, names, input, station),
        Role::Receiver => run_receiver(alloc, names, input, station),
    }
}

/// Runs the supplier's end by the drafts that an input says.
fn run_handheld<T: Station>(
    alloc: Global,
    names: &EndNames,
    input: &[u8],
    station: &mut T,
) -> Result<Verdict, AllocError>
    requires short { length input.now ≤ INPUT_BYTES }
    ensures told { IfOk result (ServesInput T.tells Role.Supplier names.now input.now (served_of T.told T.faults station.old station.new)) }
    ensures left { T.tells → IsIdle names.now (T.told station.old) (T.told station.new) ⊎ RunsBy Role.Supplier names.now input.now (T.told station.old) (T.told station.new) }
    ensures later { T.faults station.old ≤ T.faults station.new }
{
    match Drafts::read(alloc, input) {
        Ok(drafts) => run_end(alloc, Role::Supplier, names, drafts, station),
        Err(DraftFault::Refused { place, reason }) => Ok(refused(place, reason)),
        Err(DraftFault::Memory) => Err(AllocError),
    }
}

/// Runs the receiver's end by what an input says was counted.
fn run_receiver<T: Station>(
    alloc: Global,
    names: &EndNames,
    input: &[u8],
    station: &mut T,
) -> Result<Verdict, AllocError>
    requires short { length input.now ≤ INPUT_BYTES }
    ensures told { IfOk result (ServesInput T.tells Role.Receiver names.now input.now (served_of T.told T.faults station.old station.new)) }
    ensures left { T.tells → IsIdle names.now (T.told station.old) (T.told station.new) ⊎ RunsBy Role.Receiver names.now input.now (T.told station.old) (T.told station.new) }
    ensures later { T.faults station.old ≤ T.faults station.new }
{
    match Counts::read(alloc, input) {
        Ok(counts) => run_end(alloc, Role::Receiver, names, counts, station),
        Err(DraftFault::Refused { place, reason }) => Ok(refused(place, reason)),
        Err(DraftFault::Memory) => Err(AllocError),
    }
}

/// The verdict on choices, or a script, that are refused.
pub fn refused(place: usize, reason: DraftReason) -> Verdict
    ensures { result ≡ Verdict.Refused (record { place = place; reason = Reason.Draft reason }) }
{
    Verdict::Refused(Refusal {
        place,
        reason: Reason::Draft(reason),
    })
}
