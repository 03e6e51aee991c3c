//! A step that a world keeps.

ghost use Rattle.std.specs.Prelude.{◌≡◌, true};
ghost use Rattle.cable_world.specs.Cables.{IsStepIn};
ghost use Rattle.cable_world.specs.Finishing.{last_after};
ghost use Rattle.cable_world.specs.Steps.{same_role};

use crate::answer::Answer;
use crate::last_run::{is_same, last_behind};
use dsd_station::Call;
use dsd_values::Role;
use end_report::LastRun;
use std::marker::Model;

/// A step: whose it is, what was answered, and which calls of its station's record it made.
#[derive(Drop)]
pub(crate) struct Step {
    role: Role,
    answer: Answer,
    from: usize,
    until: usize,
}

impl Model for Step {
    ghost use Rattle.cable_world.specs.StepsKept.{StepView, step_of};

    ghost Value = { StepView };

    ghost view = { step_of };
}

impl Step {
    pub(crate) fn new(role: Role, answer: Answer, from: usize, until: usize) -> Step
        ensures { result ≡ record { role = role; answer = answer; from = from; until = until } }
    {
        Step {
            role,
            answer,
            from,
            until,
        }
    }

    /// How the last run of the end of this role came out behind it. The calls are that end's record.
    pub(crate) fn behind(&self, role: Role, before: LastRun, calls: &[Call]) -> LastRun
        requires { same_role role self.now.role ≡ true → IsStepIn calls.now self.now }
        ensures { result ≡ last_after role calls.now before self.now }
    {
        if is_same(role, self.role) {
            return last_behind(before, self.answer, &calls[self.from..self.until]);
        }
        before
    }
}
