//! Laws of what any events leave.

ghost use Rattle.std.specs.Prelude.{[], List, ◌++◌, ◌≡◌};
ghost use Rattle.dsd_values.specs.declared.role.Role.TheVariants.{Receiver, Supplier};
ghost use Rattle.dsd_values.specs.declared.role.Role.{Role};
ghost use Rattle.dsd_station.specs.Logged.{Log};
ghost use Rattle.dsd_journal.specs.declared.entry.Entry.{Entry};
ghost use Rattle.dsd_journal.specs.declared.header.Header.{Header};
ghost use Rattle.clean_sessions.specs.DeliveryStands.{AreBacked};
ghost use Rattle.cable_world.specs.Leaving.{IsBegun};
ghost use Rattle.cable_world.specs.Living.{CallSo, HasNoHear};
ghost use Rattle.cable_world.specs.Obeying.{Obeys, first_scene};
ghost use Rattle.cable_world.specs.Scenes.{Scene};
ghost use Rattle.cable_world.specs.Steps.{WorldStep};
ghost use Rattle.cable_world.specs.Worlds.{HasPlayed, WorldView};
ghost use Rattle.cable_world.specs.declared.event.Event.{Event};
ghost use Rattle.clean_worlds.specs.Histories.{IsLeftWith, LeavesBacked, NoSetsClash};

/// What the steps of an end tell, a front of them tells too.
pub fn fronts_begin_lives()
    ensures { (role : Role) (header : Header) (log : Log) (front rest : List WorldStep) → IsBegun role header log (front ++ rest) → IsBegun role header log front }
{}

/// However blocks are lost, repeated, reordered or visibly damaged by a script that names no bytes to be heard, and whatever stops and fails:
/// the lists that both images hold which are left behind any of its events are legal, and each one's taken sets are among the other's signed
/// ones, unless sets of theirs clash.
pub fn histories_leave_backed_lists()
    ensures steps { (events : List Event) (supplier receiver : Log) (steps : List WorldStep) (last : Scene) (one other : Header) (supplier_entries receiver_entries : List Entry)
        → Obeys events (first_scene supplier receiver) steps last → HasNoHear events → supplier.plan.fed ≡ [] → receiver.plan.fed ≡ [] → CallSo steps
        → IsBegun Supplier one supplier steps → IsBegun Receiver other receiver steps → IsLeftWith Supplier one supplier steps supplier_entries
        → IsLeftWith Receiver other receiver steps receiver_entries → NoSetsClash supplier_entries receiver_entries → AreBacked Supplier supplier_entries receiver_entries }
    ensures world { (world : WorldView) (events more : List Event) → HasPlayed world → HasNoHear events → world.script.events ≡ events ++ more → LeavesBacked events world }
{
    dsd_journal::an_image_holds_one_list();
}
