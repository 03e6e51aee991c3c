//! Laws of what the images hold behind a clean event.

ghost use Rattle.std.specs.Prelude.{All, List};
ghost use Rattle.dsd_values.specs.declared.role.Role.{Role};
ghost use Rattle.dsd_values.specs.declared.role.Role.TheVariants.{Supplier};
ghost use Rattle.base_record_894.specs.RecordText.{IsBase};
ghost use Rattle.dsd_journal.specs.declared.entry.Entry.{Entry};
ghost use Rattle.clean_sessions.specs.DeliveryStands.{AreBacked};
ghost use Rattle.cable_world.specs.Worlds.{HasPlayed, WorldView, chooser_of};
ghost use Rattle.cable_world.specs.declared.event.Event.{Event};
ghost use Rattle.clean_worlds.specs.CleanWorlds.{EndsInClean};
ghost use Rattle.clean_worlds.specs.LeftLists.{AreSettledLists, LeavesLists, entries_left};
ghost use Rattle.clean_worlds.specs.WholeFrames.{GoWell};

/// Behind a clean event that went well the image of each end holds the entries that the session leaves at its desk.
pub fn images_hold_what_a_session_leaves()
    ensures { (world : WorldView) (events : List Event) → (e : EndsInClean events world) → (well : GoWell e.behind) → LeavesLists world (entries_left (e.clean well).played.more (e.clean well).played.new) }
{}

/// So the lists that both images hold are settled, where those that the journals held as the session began are legal and back each other: they have the
/// same sets of each delivery, it is final at both ends where one of these is an acceptance, and else it awaits an end that has declined it.
pub fn images_are_settled()
    ensures { (world : WorldView) (events : List Event) → HasPlayed world → All IsBase (chooser_of world.script Supplier).drafts → (e : EndsInClean events world) → (well : GoWell e.behind)
        → AreBacked Supplier (e.clean well).supplier_entries (e.clean well).receiver_entries → (lists : Role → List Entry) → LeavesLists world lists → AreSettledLists world.script lists }
{
    // Each image holds one list at most.
    dsd_journal::an_image_holds_one_list();
}
