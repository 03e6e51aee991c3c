//! Laws of a clean event of a world.

ghost use Rattle.std.specs.Prelude.{All, List, Option, length, ℕ, ◌+◌, ◌≤◌};
ghost use Rattle.base_record_894.specs.RecordText.{IsBase};
ghost use Rattle.dsd_values.specs.declared.role.Role.TheVariants.{Receiver, Supplier};
ghost use Rattle.dsd_values.specs.declared.role.Role.{Role};
ghost use Rattle.dsd_record.specs.Choices.{Chooser};
ghost use Rattle.dsd_station.specs.Replayed.{State};
ghost use Rattle.dsd_journal.specs.Headers.{IsId};
ghost use Rattle.dsd_journal.specs.declared.entry.Entry.{Entry};
ghost use Rattle.dsd_end.specs.Standings.{Standing};
ghost use Rattle.clean_sessions.specs.Beginnings.{opened, receiver_header, seat_before, supplier_header};
ghost use Rattle.clean_sessions.specs.DeliveryStands.{AreBacked};
ghost use Rattle.clean_sessions.specs.SeatTurns.{most_turns};
ghost use Rattle.cable_world.specs.Living.{CallSo};
ghost use Rattle.cable_world.specs.Noted.{Noted, steps_of};
ghost use Rattle.cable_world.specs.Obeying.{Exchanges, Plays};
ghost use Rattle.cable_world.specs.Scenes.{Scene};
ghost use Rattle.cable_world.specs.Steps.{WorldStep};
ghost use Rattle.cable_world.specs.declared.event.Event.TheVariants.{Clean};
ghost use Rattle.clean_worlds.specs.CleanBeginnings.{BeginsClean, MadeWell, PlaysClean, RunningHear};
ghost use Rattle.clean_worlds.specs.CleanPlays.{PlaysSession, choosers, headers};
ghost use Rattle.clean_worlds.specs.WholeFrames.{GoWell};
ghost use Rattle.clean_worlds.specs.WorldHalls.{BothCome, ShowsHall};

/// From two ends that were opened over any entries and whose ids match, the handheld's Enq on its way, the rounds up to the one behind which
/// no end runs are a clean session: both ends are complete behind them.
pub fn rounds_are_a_clean_session()
    ensures { (id other : List ℕ) (supplier receiver : Chooser) (supplier_entries receiver_entries : List Entry) (state : Role → State) (scene : Scene) (standing : Role → Option Standing) (noted : List Noted)
        (next : Scene) (last : Role → Option Standing) → IsId id → IsId other
        → ShowsHall (choosers supplier receiver) (headers id other) Receiver Supplier (opened id other supplier receiver supplier_entries receiver_entries) scene standing
        → Exchanges scene (steps_of noted) next → BothCome (choosers supplier receiver) (headers id other) state standing noted last → CallSo (steps_of noted) → GoWell noted
        → PlaysSession id other supplier receiver supplier_entries receiver_entries next last }
{}

/// A clean event between two ends whose ids match, in which no call fails and no fault is answered, is a clean session over what both journals hold
/// as their ends are opened. It begins with both ends opened over these entries and the handheld's Enq on its way, and both are complete behind it.
pub fn clean_events_are_clean_sessions()
    ensures begins { (id other : List ℕ) (supplier receiver : Chooser) (state : Role → State) (scene : Scene) (before : Role → Option Standing) (steps : List WorldStep) (next : Scene)
        (last : Role → Option Standing) → IsId id → IsId other → RunningHear before scene → MadeWell (choosers supplier receiver) (headers id other) state before steps last → Plays Clean scene steps next
        → BeginsClean id other supplier receiver state steps next last }
    ensures plays { (id other : List ℕ) (supplier receiver : Chooser) (state : Role → State) (scene : Scene) (before : Role → Option Standing) (steps : List WorldStep) (next : Scene)
        (last : Role → Option Standing) → IsId id → IsId other → RunningHear before scene → MadeWell (choosers supplier receiver) (headers id other) state before steps last → Plays Clean scene steps next
        → PlaysClean id other supplier receiver state steps next last }
{}

/// Of such a session, over two legal lists of which each one's taken sets are among the other's signed ones, and between ends whose drafts are base
/// records, the own turns are at most 74 for each delivery that an end knows or has a draft of, and two more.
pub fn clean_events_have_few_turns()
    ensures { (id other : List ℕ) (supplier receiver : Chooser) (supplier_entries receiver_entries : List Entry) (next : Scene) (last : Role → Option Standing) → IsId id → IsId other
        → AreBacked Supplier supplier_entries receiver_entries → All IsBase supplier.drafts → All IsBase receiver.drafts
        → (played : PlaysSession id other supplier receiver supplier_entries receiver_entries next last)
        → 1 + length played.more ≤ most_turns (seat_before (supplier_header id other) supplier supplier_entries) (seat_before (receiver_header id other) receiver receiver_entries) }
{}
