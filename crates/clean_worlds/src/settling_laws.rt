//! Laws of what a clean event leaves.

ghost use Rattle.std.specs.Prelude.{All, List, Option, ℕ};
ghost use Rattle.dsd_values.specs.declared.role.Role.TheVariants.{Supplier};
ghost use Rattle.dsd_values.specs.declared.role.Role.{Role};
ghost use Rattle.base_record_894.specs.RecordText.{IsBase};
ghost use Rattle.dsd_record.specs.Choices.{Chooser};
ghost use Rattle.dsd_station.specs.Replayed.{State};
ghost use Rattle.dsd_journal.specs.Headers.{IsId};
ghost use Rattle.dsd_end.specs.Standings.{Standing};
ghost use Rattle.clean_sessions.specs.Beginnings.{receiver_header, seat_before, supplier_header};
ghost use Rattle.clean_sessions.specs.DeliveryStands.{AreBacked};
ghost use Rattle.clean_sessions.specs.Settled.{LeavesSettled};
ghost use Rattle.cable_world.specs.Scenes.{Scene};
ghost use Rattle.cable_world.specs.Steps.{WorldStep};
ghost use Rattle.clean_worlds.specs.CleanBeginnings.{PlaysClean};

/// A clean event heals: where both journals hold legal lists, each one's taken sets among the other's signed ones, both ends have the same sets of each
/// delivery behind it. It is final at both where one of these is an acceptance; else it awaits an end, and that end has declined it. Blocks and polls are
/// bounded by what both ends have signed.
pub fn clean_events_settle_deliveries()
    ensures { (id other : List ℕ) (supplier receiver : Chooser) (state : Role → State) (steps : List WorldStep) (next : Scene) (last : Role → Option Standing) → IsId id → IsId other
        → All IsBase supplier.drafts → All IsBase receiver.drafts → (p : PlaysClean id other supplier receiver state steps next last) → AreBacked Supplier p.supplier_entries p.receiver_entries
        → LeavesSettled (seat_before (supplier_header id other) supplier p.supplier_entries) (seat_before (receiver_header id other) receiver p.receiver_entries) p.played.first p.played.more p.played.new }
{}
