//! Laws of the polls of two ends between which every frame is delivered.

ghost use Rattle.std.specs.Prelude.{All, Bool, List, None, length, ℕ, ◌≡◌, ◌≤◌};
ghost use Rattle.dex_line.specs.FrameShapes.{Block, FrameShape};
ghost use Rattle.dex_line.specs.FrameSpelling.{IsSpoken, spelling};
ghost use Rattle.dex_line.specs.declared.cutter.TheConstants.{BLOCK_WRITTEN};
ghost use Rattle.dex_handshake.specs.LineRun.{load_of};
ghost use Rattle.dex_handshake.specs.LineTable.{Common};
ghost use Rattle.dsd_record.specs.Choices.{Chooser};
ghost use Rattle.dsd_journal.specs.declared.header.Header.{Header};
ghost use Rattle.dsd_journal.specs.Headers.{IsId};
ghost use Rattle.dsd_journal.specs.declared.entry.Entry.{Entry};
ghost use Rattle.own_turn.specs.DueSets.{DueSet, texts_of};
ghost use Rattle.own_turn.specs.OwnTurn.{Desk, IsLoad, gathered, lent, sets_lent};
ghost use Rattle.dsd_end.specs.PollStep.{Done};
ghost use Rattle.dsd_end.specs.Sealing.{IsSomeSet};
ghost use Rattle.dsd_end.specs.Standings.{Standing};
ghost use Rattle.clean_sessions.specs.Beginnings.{AreHeadersTaken, BeginsTexts, EndsClean, IsCleanSession, opened};
ghost use Rattle.clean_sessions.specs.Feeding.{AreFed, HearsOnce, IsFed, IsListening};
ghost use Rattle.clean_sessions.specs.Halls.{BeginsTurn, Hall, IsTurnTaken, LeavesHall};
ghost use Rattle.clean_sessions.specs.Sessions.{AreTaken, IsSession, IsSpokenText, Spoken};

/// A frame that is fed to an end whole is heard once, as the table and the own turn behind it have it, however many polls that takes. A block of
/// a load takes four at most.
pub fn frames_are_heard_once()
    ensures once { (chooser : Chooser) (standing : Standing) (frame : FrameShape) (pieces : List (List ℕ)) (done : Done) → IsSpoken frame → IsListening standing
        → IsFed chooser standing frame pieces done → HearsOnce chooser standing frame done }
    ensures block { (last : Bool) (text : List ℕ) (pieces : List (List ℕ)) → length text ≤ BLOCK_WRITTEN → AreFed (spelling (Block last text)) pieces → length pieces ≤ 4 }
{}

/// From two ends that were opened over any entries and whose ids match, the two turns with the headers lead to the Enq of the supplier's first own
/// turn. The supplier has then been polled six times and the receiver five times, at most.
pub fn sessions_begin()
    ensures { (id other : List ℕ) (supplier receiver : Chooser) (supplier_entries receiver_entries : List Entry) (new : Hall) → IsId id → IsId other
        → AreHeadersTaken (opened id other supplier receiver supplier_entries receiver_entries) new → BeginsTexts id other (opened id other supplier receiver supplier_entries receiver_entries) new }
{}

/// From the Enq of a turn on, a frame for each of its blocks, their replies and the Eot lead to the Enq of the other end's own turn, which has
/// heard the text; where it is the second turn in succession without a block, both ends are complete. The end whose turn it is makes a poll
/// for each block and one more, the other one four for each block and two more at most.
pub fn clean_turns_go_on()
    ensures { (owner hearer : Common) (text : List ℕ) (old new : Hall) → BeginsTurn owner hearer text old → IsTurnTaken (length (load_of text)) old new → LeavesHall owner hearer text old new }
{}

/// The sets that are lent of a load are those that were gathered, without a fault, and each is a set. It has at most two blocks more than these sets
/// have, each cut alone.
pub fn loads_are_given()
    ensures lent { (header : Header) (control : ℕ) (sets : List DueSet) (load : List ℕ) → IsLoad header control sets load → sets_lent load ≡ texts_of sets }
    ensures fault { (header : Header) (control : ℕ) (sets : List DueSet) (load : List ℕ) → IsLoad header control sets load → (lent load).fault ≡ None }
    ensures sets { (header : Header) (desk : Desk) → All IsSomeSet (texts_of (gathered header desk)) }
    ensures cost { (header : Header) (sets : List DueSet) (control : ℕ) (spoken : Spoken) → IsLoad header control sets spoken.text → All IsSomeSet (texts_of sets)
        → spoken.sets ≡ texts_of sets → IsSpokenText spoken }
{}

/// From a turn of texts on, turn after turn up to the second in succession without a block, both ends come to be complete, and each was polled no
/// more than these turns cost.
pub fn turns_end_complete()
    ensures { (first : Spoken) (more : List Spoken) (owner hearer : Common) (old new : Hall) → BeginsTurn owner hearer first.text old → IsSpokenText first
        → AreTaken more owner hearer first.text old new → IsSession first more old new }
{}

/// A clean session over any entries, between two ends whose ids match, up to the second turn in succession without a block: both ends are then
/// complete, and each was polled at most 60 times, and 24 times for each block of the sets that were spoken. With at most 1,299 such blocks each has
/// heard fewer bytes than would make it give up.
pub fn clean_session()
    ensures { (id other : List ℕ) (supplier receiver : Chooser) (supplier_entries receiver_entries : List Entry) (first : Spoken) (more : List Spoken) (new : Hall) → IsId id → IsId other
        → IsCleanSession id other supplier receiver supplier_entries receiver_entries first more new → EndsClean first more new }
{}
