//! Laws of what the own turns of a clean session make of one delivery.

ghost use Rattle.std.specs.Prelude.{All, List, [], false, true, length, ℕ, ◌*◌, ◌+◌, ◌≡◌, ◌≤◌};
ghost use Rattle.dsd_values.specs.declared.role.Role.{Role};
ghost use Rattle.dsd_values.specs.declared.role.Role.TheVariants.{Supplier};
ghost use Rattle.base_record_894.specs.RecordText.{IsBase};
ghost use Rattle.dsd_record.specs.Choices.{Chooser};
ghost use Rattle.dsd_journal.specs.Headers.{IsId};
ghost use Rattle.dsd_journal.specs.declared.entry.Entry.{Entry};
ghost use Rattle.dsd_journal.specs.declared.header.Header.{Header};
ghost use Rattle.delivery_book.specs.Deeds.{other_role};
ghost use Rattle.own_turn.specs.DueSets.{DueSet};
ghost use Rattle.own_turn.specs.OwnTurn.{Desk, Turned, gathered};
ghost use Rattle.clean_sessions.specs.Beginnings.{GoesOnClean, IsCleanSession, receiver_header, seat_before, supplier_header};
ghost use Rattle.clean_sessions.specs.Halls.{Hall};
ghost use Rattle.clean_sessions.specs.Sessions.{Spoken};
ghost use Rattle.clean_sessions.specs.SinceLast.{SpeakOnce, blocks_spoken_in, desk_behind, signed_since};
ghost use Rattle.clean_sessions.specs.CourseTurns.{BothHave, EndSilent, FollowCourse, blocks_in};
ghost use Rattle.clean_sessions.specs.Courses.{Course, TakesTurn, blocks_left};
ghost use Rattle.clean_sessions.specs.Places.{IsCourse};
ghost use Rattle.clean_sessions.specs.Declining.{HasAnswered};
ghost use Rattle.clean_sessions.specs.DeliveryStands.{AreBacked, FollowsCourse, IsBetweenTurns, SignsSets, is_among, may_propose, stand_of};
ghost use Rattle.clean_sessions.specs.Settled.{AreSettled, LeavesSettled};
ghost use Rattle.clean_sessions.specs.SeatTurns.{AreOwnTurns, EndsWhenSilent, IsFresh, MeetForTurns, Seat, most_turns};

/// What an end signs of a delivery by its choices is a set of that delivery: an acceptance where it accepts, and else a proposal.
pub fn own_sets_are_of_their_delivery()
    ensures { (role : Role) (chooser : Chooser) → All IsBase chooser.drafts → SignsSets role chooser }
{}

/// An own turn that has heard the sets its partner spoke last leaves both lists legal and backed, and gives a text of which the partner hears
/// what was gathered. Of each delivery, and each course with which the turn goes on, it is a turn of that course: it takes its partner's set or
/// knows it, signs what the course has for it to sign, and speaks what is due.
pub fn own_turns_follow_courses()
    ensures between { (header : Header) (chooser : Chooser) (old partner new : Desk) (sets : List DueSet) (text load : List ℕ) → All IsBase chooser.drafts → IsBetweenTurns header.role old partner sets text
        → (turned : Turned header chooser old text new load) → IsBetweenTurns (other_role header.role) partner new (gathered header turned.proposed) load }
    ensures turn { (header : Header) (chooser : Chooser) (old partner new : Desk) (sets : List DueSet) (text load : List ℕ) → All IsBase chooser.drafts → IsBetweenTurns header.role old partner sets text
        → (turned : Turned header chooser old text new load) → (course : Course) (number : List ℕ) → FollowsCourse course number header.role old partner new sets
        → TakesTurn course (may_propose header.role) (is_among number sets) (is_among number (gathered header turned.proposed)) (stand_of number header.role old partner) (stand_of number (other_role header.role) partner new) }
{}

/// Behind an own turn, each delivery that still awaits the end was declined in it, and each draft whose delivery is still new was held back: its choices gave no
/// text that it may sign.
pub fn own_turns_answer_deliveries()
    ensures { (header : Header) (chooser : Chooser) (old partner new : Desk) (sets : List DueSet) (text load : List ℕ) → All IsBase chooser.drafts → IsBetweenTurns header.role old partner sets text
        → Turned header chooser old text new load → HasAnswered header.role chooser new.entries }
{}

/// Own turns come to an end: from two backed lists of which no delivery was spoken in this session, two in a row gather nothing within 74 turns for each
/// delivery that an end knows or has a draft of, and two turns more.
pub fn own_turns_come_to_an_end()
    ensures { (near far : Seat) (turns : List (List DueSet)) → MeetForTurns near far [] [] → IsFresh near → IsFresh far → AreOwnTurns turns near far [] → EndsWhenSilent false turns → length turns ≤ most_turns near far }
{}

/// A delivery whose course all own turns of a session follow, from the supplier's first one on to two in a row in which nothing is due, is then whole in both
/// lists, and final in both where the course ends with an acceptance. What is spoken of it has no more blocks than are left of the course as the
/// session begins.
pub fn followed_courses_come_to_their_end()
    ensures whole { (course : Course) (number : List ℕ) (turns : List (List DueSet)) (near far : Seat) → MeetForTurns near far [] [] → near.header.role ≡ Supplier → IsFresh near → IsFresh far → IsCourse course → 1 ≤ course.sets
        → (t : AreOwnTurns turns near far []) → FollowCourse course number turns near far [] [] t → EndSilent turns near far [] t → BothHave course number turns near far [] t }
    ensures blocks { (course : Course) (number : List ℕ) (turns : List (List DueSet)) (near far : Seat) → MeetForTurns near far [] [] → (t : AreOwnTurns turns near far []) → FollowCourse course number turns near far [] [] t
        → (weight : ℕ → ℕ) → blocks_in weight course number turns near far [] [] t ≤ blocks_left weight course (stand_of number near.header.role near.desk far.desk) }
{}

/// Behind own turns from the supplier's first one on to two in a row in which nothing is due, both lists have the same sets of each delivery, and
/// it is final in both where one of these is an acceptance.
pub fn deliveries_are_settled()
    ensures { (turns : List (List DueSet)) (near far : Seat) → MeetForTurns near far [] [] → near.header.role ≡ Supplier → IsFresh near → IsFresh far → (t : AreOwnTurns turns near far []) → EndSilent turns near far [] t → AreSettled turns near far [] t }
{}

/// What own turns speak, from two backed lists of which no delivery was spoken in this session, has at most twice the blocks of what their ends have
/// signed of each delivery from its last set before the session on, each set cut alone and counted as often as it is spoken.
pub fn own_turns_speak_few_blocks()
    ensures { (turns : List (List DueSet)) (near far : Seat) → MeetForTurns near far [] [] → IsFresh near → IsFresh far → (t : AreOwnTurns turns near far [])
        → blocks_spoken_in turns ≤ 2 * (signed_since near.desk.entries (desk_behind true turns near far [] t).entries + signed_since far.desk.entries (desk_behind false turns near far [] t).entries) }
{}

/// A clean session comes to an end. Over two legal lists of which each one's taken sets are among the other's signed ones, between two ends whose ids match and
/// whose drafts are base records, the polls make own turns, of which the second one in succession without a block comes within 74 turns for each
/// delivery that an end knows or has a draft of, and two turns more.
pub fn clean_sessions_come_to_an_end()
    ensures { (id other : List ℕ) (supplier receiver : Chooser) (supplier_entries receiver_entries : List Entry) → IsId id → IsId other → AreBacked Supplier supplier_entries receiver_entries
        → All IsBase supplier.drafts → All IsBase receiver.drafts → (first : Spoken) (more : List Spoken) (new : Hall) → GoesOnClean id other supplier receiver supplier_entries receiver_entries first more new
        → 1 + length more ≤ most_turns (seat_before (supplier_header id other) supplier supplier_entries) (seat_before (receiver_header id other) receiver receiver_entries) }
{}

/// From two empty lists own turns speak each set once: so what they speak has no more blocks than what their ends have signed.
pub fn own_turns_speak_once()
    ensures each { (turns : List (List DueSet)) (near far : Seat) → MeetForTurns near far [] [] → near.header.role ≡ Supplier → near.desk.entries ≡ [] → far.desk.entries ≡ [] → IsFresh near → IsFresh far
        → (t : AreOwnTurns turns near far []) → SpeakOnce turns near far [] t }
    ensures blocks { (turns : List (List DueSet)) (near far : Seat) → MeetForTurns near far [] [] → near.header.role ≡ Supplier → near.desk.entries ≡ [] → far.desk.entries ≡ [] → IsFresh near → IsFresh far
        → (t : AreOwnTurns turns near far []) → blocks_spoken_in turns ≤ signed_since near.desk.entries (desk_behind true turns near far [] t).entries + signed_since far.desk.entries (desk_behind false turns near far [] t).entries }
{}

/// A clean session between two ends whose ids match, over two legal lists of which each one's taken sets are among the other's signed ones, up to the second
/// turn in succession without a block: both ends then have the same sets of each delivery, and it is final at both where one of these is an acceptance;
/// else it awaits an end, and that end has declined it. Drafts that are still new were held back. Of turns there are at most 74 for each delivery that an end knows or has a draft of, and two more.
/// The blocks of all that is spoken, each set cut alone and counted as often as it is spoken, are at most twice those of what both ends have then
/// signed of each delivery from its last set before on; and for each of these blocks an end is polled 24 times at most, and 60 times more. From two
/// empty lists each set is spoken once.
pub fn clean_sessions_settle_deliveries()
    ensures { (id other : List ℕ) (supplier receiver : Chooser) (supplier_entries receiver_entries : List Entry) (first : Spoken) (more : List Spoken) (new : Hall) → IsId id → IsId other
        → All IsBase supplier.drafts → All IsBase receiver.drafts → AreBacked Supplier supplier_entries receiver_entries → IsCleanSession id other supplier receiver supplier_entries receiver_entries first more new
        → LeavesSettled (seat_before (supplier_header id other) supplier supplier_entries) (seat_before (receiver_header id other) receiver receiver_entries) first more new }
{}
