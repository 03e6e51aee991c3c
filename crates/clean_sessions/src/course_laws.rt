//! Laws of one delivery over the turns of a clean session.

ghost use Rattle.std.specs.Prelude.{Bool, List, false, not, true, ℕ, ◌+◌, ◌≡◌, ◌≤◌};
ghost use Rattle.dsd_values.specs.declared.role.Role.{Role};
ghost use Rattle.dsd_values.specs.declared.role.Role.TheVariants.{Receiver, Supplier};
ghost use Rattle.dsd_journal.specs.declared.entry.Entry.{Entry};
ghost use Rattle.delivery_book.specs.Agreement.{Backed};
ghost use Rattle.delivery_book.specs.Deeds.{deeds_of, of_delivery};
ghost use Rattle.delivery_book.specs.Signing.{Legal};
ghost use Rattle.clean_sessions.specs.Courses.{Course, Stand, TakesTurn, as_number, blocks_left, blocks_spoken, is_due, nothing_told, prepares, still_left};
ghost use Rattle.clean_sessions.specs.DeedShapes.{AreInTurn, deeds_seen, first_kind};
ghost use Rattle.clean_sessions.specs.Fronts.{Backs, Fronts, Seen, TakeTurns};
ghost use Rattle.clean_sessions.specs.Places.{Begins, Bounded, Holds, IsCourse, IsDone, OnceEach};

/// Two lists on one delivery, one of each end, of which each one's taken texts are among the other's signed ones, are fronts of one course: the
/// same texts, but for one that the longer list has signed as its last.
pub fn lists_are_fronts()
    ensures { (place : List ℕ → ℕ) (signed : Bool) (n : ℕ) (deeds others : List Seen) → TakeTurns place signed n deeds → TakeTurns place (not signed) n others
        → Backs others deeds → Backs deeds others → Fronts deeds others }
{}

/// In a legal list the deeds of a delivery are signed and taken in turn, each at its place.
pub fn deeds_take_turns()
    ensures { (role : Role) (entries : List Entry) (number : List ℕ) → Legal role entries → AreInTurn (first_kind role) 0 (of_delivery number (deeds_of entries)) }
{}

/// Two legal lists, one of each role, of which each one's taken sets are among the other's signed ones, are fronts of one course of each
/// delivery.
pub fn lists_have_one_course()
    ensures { (supplier receiver : List Entry) (number : List ℕ) → Legal Supplier supplier → Legal Receiver receiver → Backed supplier receiver → Backed receiver supplier → Fronts (deeds_seen number supplier) (deeds_seen number receiver) }
{}

/// What holds of a delivery before a turn holds before the next one, from the first one of a session on.
pub fn turns_keep_places()
    ensures first { (course : Course) (goes : Bool) (old new : Stand) → Begins course old → TakesTurn course true false goes old new → Holds course goes new }
    ensures kept { (course : Course) (drafts sent goes : Bool) (old new : Stand) → Holds course sent old → TakesTurn course drafts sent goes old new → Holds course goes new }
{}

/// Behind two turns in a row in which it was not due, a delivery's whole course is known to both ends.
pub fn courses_are_done()
    ensures ends { (course : Course) (drafts sent next_drafts : Bool) (old new : Stand) → IsCourse course → Holds course sent old → TakesTurn course drafts sent false old new
        → is_due course (prepares course drafts sent old) ≡ false → is_due course (prepares course next_drafts false new) ≡ false → IsDone course new }
    ensures at_once { (course : Course) (next_drafts : Bool) (old new : Stand) → Begins course old → TakesTurn course true false false old new
        → is_due course (prepares course true false old) ≡ false → is_due course (prepares course next_drafts false new) ≡ false → IsDone course new }
{}

/// A turn that speaks leaves less, and none leaves more. No set is spoken more than twice.
pub fn turns_run_out()
    ensures { (course : Course) (drafts sent goes : Bool) (old new : Stand) → Bounded course old → TakesTurn course drafts sent goes old new
        → Bounded course new × (still_left course new + as_number goes ≤ still_left course old) }
{}

/// What a session speaks of a delivery has at most twice the blocks of the sets that are still to be signed of it and of the last one that each
/// end has signed.
pub fn blocks_run_out()
    ensures { (weight : ℕ → ℕ) (course : Course) (drafts sent goes : Bool) (old new : Stand) → TakesTurn course drafts sent goes old new
        → blocks_left weight course new + blocks_spoken weight goes (prepares course drafts sent old) ≤ blocks_left weight course old }
{}

/// From two empty lists each set is spoken once.
pub fn sets_are_spoken_once()
    ensures empty { OnceEach false (record { sets = 0; heard = false; last_own = false; own = nothing_told; partner = nothing_told }) }
    ensures once { (course : Course) (drafts sent goes : Bool) (old new : Stand) → OnceEach sent old → TakesTurn course drafts sent goes old new
        → OnceEach goes new × (goes ≡ true → (prepares course drafts sent old).own.times ≡ 0) }
{}
