//! How the last run of an end came out.

ghost use Rattle.std.specs.Prelude.{◌≡◌};
ghost use Rattle.cable_world.specs.Finishing.{AreStepsOf, last_along};
ghost use Rattle.cable_world.specs.LastRuns.{has_stop as has_stop_by, has_stopped as has_stopped_by, last_behind as last_behind_by, last_by as last_by_answer, last_by_fault as last_by_end, was_stopped as was_stopped_by};
ghost use Rattle.cable_world.specs.Steps.{same_role};

use crate::answer::Answer;
use crate::step::Step;
use dsd_end::EndFault;
use dsd_station::{Call, Outcome};
use dsd_values::Role;
use end_report::{Ending, LastRun};

/// How the last run of the end of this role came out, behind these steps. The calls are its station's record.
pub(crate) fn last_run(role: Role, steps: &[Step], calls: &[Call]) -> LastRun
    requires { AreStepsOf role calls.now steps.now }
    ensures { result ≡ last_along role calls.now LastRun.Never steps.now }
{
    let mut last = LastRun::Never;
    for step in steps {
        last = step.behind(role, last, calls);
    }
    last
}

pub(crate) fn is_same(one: Role, other: Role) -> bool
    ensures { result ≡ same_role one other }
{
    matches!(
        (one, other),
        (Role::Supplier, Role::Supplier) | (Role::Receiver, Role::Receiver)
    )
}

/// Behind a step of its end that answered so with these calls.
pub(crate) fn last_behind(before: LastRun, answer: Answer, part: &[Call]) -> LastRun
    ensures { result ≡ last_behind_by before answer part.now }
{
    if was_stopped(&before, &answer) {
        return LastRun::Stopped;
    }
    if has_stop(part) {
        return LastRun::Stopped;
    }
    last_by(answer)
}

/// Whether a stop fell earlier in the run to which this answer belongs.
fn was_stopped(before: &LastRun, answer: &Answer) -> bool
    ensures { result ≡ was_stopped_by before.now answer.now }
{
    match answer {
        Answer::Opened | Answer::NotOpened(_) => false,
        Answer::Running | Answer::Ended(_) | Answer::Broken(_) => matches!(
            before,
            LastRun::Stopped
        ),
    }
}

/// Whether a stop fell in one of these calls.
fn has_stop(calls: &[Call]) -> bool
    ensures { result ≡ has_stop_by calls.now }
{
    calls.iter().any(|call| has_stopped(call))
}

fn has_stopped(call: &Call) -> bool
    ensures { result ≡ has_stopped_by call.now }
{
    match call {
        Call::Write { outcome, .. } | Call::Sync { outcome } | Call::Speak { outcome, .. } => {
            matches!(*outcome, Outcome::Stopped(_))
        }
        Call::Attach { .. }
        | Call::Size { .. }
        | Call::Read { .. }
        | Call::Listen { .. }
        | Call::Restart => false,
    }
}

/// Where no stop fell in the run.
fn last_by(answer: Answer) -> LastRun
    ensures { result ≡ last_by_answer answer }
{
    match answer {
        Answer::Opened | Answer::Running => LastRun::Running,
        Answer::Ended(end) => LastRun::Ended(Ending::Session(end)),
        Answer::NotOpened(_) => LastRun::StationFault,
        Answer::Broken(fault) => last_by_fault(fault),
    }
}

fn last_by_fault(fault: EndFault) -> LastRun
    ensures { result ≡ last_by_end fault }
{
    match fault {
        EndFault::Noise(_) => LastRun::Ended(Ending::Noise),
        EndFault::Full(_) => LastRun::Full,
        EndFault::Station | EndFault::Failed | EndFault::Memory => LastRun::StationFault,
    }
}
