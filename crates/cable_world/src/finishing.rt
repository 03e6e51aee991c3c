//! The report of two ends on one cable.

ghost use Rattle.std.specs.Prelude.{◌≡◌, ◌++◌, IfOk, OnOk};
ghost use Rattle.dsd_values.specs.declared.role.Role.TheVariants.{Receiver, Supplier};
ghost use Rattle.dsd_station.specs.Logged.{image_by};
ghost use Rattle.cable_world.specs.CableSteps.{IsOpen};
ghost use Rattle.cable_world.specs.Cables.{AreStepsIn, cable_of};
ghost use Rattle.cable_world.specs.Finishing.{Finishes, HoldsBook, Tells, part_of};
ghost use Rattle.cable_world.specs.LastRuns.{last_run_of};

use crate::cable::Cable;
use crate::last_run::last_run;
use crate::left_book::LeftBook;
use crate::world_report::{
    WorldReport, adjusted_at_both, amount_of_finals, finals_at_both, quantity_of_finals,
};
use delivery_book::Book;
use dsd_values::{Memory, Role};
use end_report::{LastRun, are_settled_at_both, put, put_report};
use std::alloc::AllocError;

impl Cable {
    /// The report of books over the images of both stations.
    pub(crate) fn finish(&mut self) -> Result<WorldReport, Memory>
        requires ready { IsOpen self.old }
        requires handheld { HoldsBook Supplier (image_by self.old.handheld.log) }
        requires receiver { HoldsBook Receiver (image_by self.old.receiver.log) }
        ensures setting { self.new.setting ≡ self.old.setting }
        ensures finishes { IfOk result (λ report. Finishes report self.old self.new) }
    {
        let handheld = self.handheld.leave(self.alloc, Role::Supplier)?;
        match self.receiver.leave(self.alloc, Role::Receiver) {
            Ok(receiver) => self.report(handheld, receiver),
            Err(memory) => {
                handheld.close();
                Err(memory)
            }
        }
    }

    /// The report of these books, which are let go.
    fn report(&self, handheld: LeftBook, receiver: LeftBook) -> Result<WorldReport, Memory>
        requires steps { AreStepsIn self.now.handheld.log.calls self.now.receiver.log.calls self.now.steps.items }
        requires handheld { handheld.known ≡ handheld.entries }
        requires receiver { receiver.known ≡ receiver.entries }
        ensures { IfOk result (λ report. Tells report self.now handheld receiver) }
    {
        let told = self.told(handheld.book(), receiver.book());
        handheld.close();
        receiver.close();
        told
    }

    /// What is told of these books, and of how the last run of each end came out.
    fn told(&self, handheld: &Book, receiver: &Book) -> Result<WorldReport, Memory>
        requires steps { AreStepsIn self.now.handheld.log.calls self.now.receiver.log.calls self.now.steps.items }
        requires handheld { handheld.now.known ≡ handheld.now.entries }
        requires receiver { receiver.now.known ≡ receiver.now.entries }
        ensures { IfOk result (λ report. Tells report self.now handheld.now receiver.now) }
    {
        let mut lines = Vec::new(self.alloc);
        self.put_handheld(&mut lines, handheld)?;
        self.put_receiver(&mut lines, receiver)?;
        Ok(WorldReport {
            lines,
            all_final: are_settled_at_both(handheld, receiver, &self.setting.drafts),
            finals: finals_at_both(handheld, receiver),
            adjusted: adjusted_at_both(handheld, receiver),
            quantity: quantity_of_finals(handheld),
            amount: amount_of_finals(handheld),
        })
    }

    fn put_handheld(&self, out: &mut Vec<u8>, book: &Book) -> Result<(), AllocError>
        requires { AreStepsIn self.now.handheld.log.calls self.now.receiver.log.calls self.now.steps.items }
        ensures { OnOk result (out.new.items ≡ out.old.items ++ part_of self.now Supplier book.now.known) }
    {
        let refused = self.handheld.refused();
        let last = self.last_run_of_handheld();
        put(out, "HANDHELD\n")?;
        put_report(self.alloc, out, book, &self.setting.drafts, refused, last)
    }

    fn put_receiver(&self, out: &mut Vec<u8>, book: &Book) -> Result<(), AllocError>
        requires { AreStepsIn self.now.handheld.log.calls self.now.receiver.log.calls self.now.steps.items }
        ensures { OnOk result (out.new.items ≡ out.old.items ++ part_of self.now Receiver book.now.known) }
    {
        let refused = self.receiver.refused();
        let last = self.last_run_of_receiver();
        put(out, "RECEIVER\n")?;
        put_report(self.alloc, out, book, &self.setting.counts, refused, last)
    }

    fn last_run_of_handheld(&self) -> LastRun
        requires { AreStepsIn self.now.handheld.log.calls self.now.receiver.log.calls self.now.steps.items }
        ensures { result ≡ last_run_of Supplier (cable_of self.now).noted }
    {
        last_run(Role::Supplier, &self.steps, self.handheld.calls())
    }

    fn last_run_of_receiver(&self) -> LastRun
        requires { AreStepsIn self.now.handheld.log.calls self.now.receiver.log.calls self.now.steps.items }
        ensures { result ≡ last_run_of Receiver (cable_of self.now).noted }
    {
        last_run(Role::Receiver, &self.steps, self.receiver.calls())
    }
}
