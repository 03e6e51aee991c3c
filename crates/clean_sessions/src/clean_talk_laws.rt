//! Laws of the talks of the deliveries in a clean session.

ghost use Rattle.std.specs.Prelude.{All, Contains, List, Ok, false, length, true, ℕ, ◌+◌, ◌<◌, ◌≡◌, ◌≤◌};
ghost use Rattle.dsd_values.specs.declared.level.TheConstants.Level.{MAX as HIGHEST};
ghost use Rattle.dsd_values.specs.declared.role.Role.TheVariants.{Receiver, Supplier};
ghost use Rattle.base_record_894.specs.BaseRecord.{BaseRecord};
ghost use Rattle.base_record_894.specs.RecordText.{IsBase};
ghost use Rattle.base_record_894.specs.WrittenText.{written_of};
ghost use Rattle.dsd_record.specs.Choices.{AreDraftsApart, Chooser};
ghost use Rattle.dsd_journal.specs.Headers.{IsId};
ghost use Rattle.dsd_journal.specs.declared.entry.Entry.{Entry};
ghost use Rattle.clean_sessions.specs.Beginnings.{IsCleanSession, receiver_header, seat_before, supplier_header};
ghost use Rattle.clean_sessions.specs.ChosenAnswers.{ChoosesRightly, IgnoresCheck, nine_digits};
ghost use Rattle.clean_sessions.specs.DeliveryStands.{AreBacked, sets_in};
ghost use Rattle.clean_sessions.specs.Halls.{Hall};
ghost use Rattle.clean_sessions.specs.Sessions.{Spoken, post_behind};
ghost use Rattle.clean_sessions.specs.TalkedSets.{FollowsTalks, IsFinalInBoth, NeverWaits, SpeaksFew};
ghost use Rattle.clean_sessions.specs.Talks.{IsTalk, Talk, by_role};

/// Each delivery of two legal lists, of which each one's taken sets are among the other's signed ones, has one talk, by both choosers alone. It has at
/// most a proposal of each level, and an acceptance.
pub fn deliveries_have_one_talk()
    ensures some { (supplier receiver : Chooser) (supplier_entries receiver_entries : List Entry) (number : List ℕ) → AreBacked Supplier supplier_entries receiver_entries
        → (talk : Talk) × IsTalk (by_role supplier receiver) (by_role supplier_entries receiver_entries) number talk }
    ensures one { (supplier receiver : Chooser) (supplier_entries receiver_entries : List Entry) (number : List ℕ) → AreBacked Supplier supplier_entries receiver_entries → (one other : Talk)
        → IsTalk (by_role supplier receiver) (by_role supplier_entries receiver_entries) number one → IsTalk (by_role supplier receiver) (by_role supplier_entries receiver_entries) number other → one ≡ other }
    ensures few { (supplier receiver : Chooser) (supplier_entries receiver_entries : List Entry) (number : List ℕ) → AreBacked Supplier supplier_entries receiver_entries → (talk : Talk)
        → IsTalk (by_role supplier receiver) (by_role supplier_entries receiver_entries) number talk → length talk.known + length talk.new ≤ HIGHEST + 2 }
{}

/// A clean session, from any two legal lists of which each one's taken sets are among the other's signed ones, says the talk of each delivery: behind it
/// both lists have the sets of the talk, and no others, but behind an end that declines since its set is too long with nine digits of a control number
/// alone. A delivery whose talk ends in an acceptance is final in both. What is spoken are sets that an end signs in it, and the last one of each
/// delivery that it had signed before; none a third time, and from two empty lists each once. The choosers do not look at integrity values, and no list
/// has so many entries that control numbers run out.
pub fn clean_talks()
    ensures said { (id other : List ℕ) (supplier receiver : Chooser) (supplier_entries receiver_entries : List Entry) (first : Spoken) (more : List Spoken) (new : Hall) → IsId id → IsId other
        → ChoosesRightly supplier → ChoosesRightly receiver → IgnoresCheck supplier → IgnoresCheck receiver → AreDraftsApart supplier.drafts → AreBacked Supplier supplier_entries receiver_entries
        → IsCleanSession id other supplier receiver supplier_entries receiver_entries first more new → length (post_behind true more new).standing.desk.entries < 999_000_000 → length (post_behind false more new).standing.desk.entries < 999_000_000
        → FollowsTalks (by_role supplier receiver) (by_role supplier_entries receiver_entries) (by_role (post_behind true more new).standing.desk.entries (post_behind false more new).standing.desk.entries) }
    ensures spoken { (id other : List ℕ) (supplier receiver : Chooser) (supplier_entries receiver_entries : List Entry) (first : Spoken) (more : List Spoken) (new : Hall) → IsId id → IsId other
        → All IsBase supplier.drafts → All IsBase receiver.drafts → AreBacked Supplier supplier_entries receiver_entries → IsCleanSession id other supplier receiver supplier_entries receiver_entries first more new
        → SpeaksFew (seat_before (supplier_header id other) supplier supplier_entries) (seat_before (receiver_header id other) receiver receiver_entries) first more }
{}

/// A clean session between two ends that never wait, each of which has an answer wherever a legal list awaits it, settles all: each known delivery is
/// final in both lists, and so is that of each draft that can be written with nine digits of a control number.
pub fn ends_that_never_wait_settle_all()
    ensures known { (id other : List ℕ) (supplier receiver : Chooser) (supplier_entries receiver_entries : List Entry) (first : Spoken) (more : List Spoken) (new : Hall) → IsId id → IsId other
        → ChoosesRightly supplier → ChoosesRightly receiver → NeverWaits Supplier supplier → NeverWaits Receiver receiver → AreBacked Supplier supplier_entries receiver_entries
        → IsCleanSession id other supplier receiver supplier_entries receiver_entries first more new → length (post_behind true more new).standing.desk.entries < 999_000_000 → length (post_behind false more new).standing.desk.entries < 999_000_000
        → (number : List ℕ) → 1 ≤ sets_in number (post_behind true more new).standing.desk.entries → IsFinalInBoth number (post_behind true more new).standing.desk.entries (post_behind false more new).standing.desk.entries }
    ensures drafted { (id other : List ℕ) (supplier receiver : Chooser) (supplier_entries receiver_entries : List Entry) (first : Spoken) (more : List Spoken) (new : Hall) → IsId id → IsId other
        → ChoosesRightly supplier → ChoosesRightly receiver → NeverWaits Supplier supplier → NeverWaits Receiver receiver → AreBacked Supplier supplier_entries receiver_entries
        → IsCleanSession id other supplier receiver supplier_entries receiver_entries first more new → length (post_behind true more new).standing.desk.entries < 999_000_000 → length (post_behind false more new).standing.desk.entries < 999_000_000
        → (draft : BaseRecord) (text : List ℕ) → Contains supplier.drafts draft → written_of draft nine_digits ≡ Ok text → IsFinalInBoth draft.number (post_behind true more new).standing.desk.entries (post_behind false more new).standing.desk.entries }
{}
