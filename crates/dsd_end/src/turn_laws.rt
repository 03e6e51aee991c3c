//! Laws of own turns and polls.

ghost use Rattle.std.specs.Prelude.{[], ◌∷◌, List, None, Option, Some, false, ◌++◌, ◌≡◌, ℕ};
ghost use Rattle.std.specs.List.{Contains};
ghost use Rattle.dex_handshake.specs.LineRun.{Lined, end_of};
ghost use Rattle.dex_handshake.specs.LineTable.{Common, Finished, hears, quiets};
ghost use Rattle.dex_line.specs.FrameShapes.{FrameShape};
ghost use Rattle.dex_line.specs.FrameSpelling.{spelling};
ghost use Rattle.dex_line.specs.Judging.{judge};
ghost use Rattle.dsd_record.specs.Choices.{Chooser};
ghost use Rattle.dsd_station.specs.declared.call.Reception.{Reception};
ghost use Rattle.dsd_journal.specs.Headers.{IsHeader};
ghost use Rattle.dsd_journal.specs.declared.entry.Entry.{Entry};
ghost use Rattle.dsd_journal.specs.declared.header.Header.{Header};
ghost use Rattle.delivery_book.specs.Signing.{Legal};
ghost use Rattle.dsd_end.specs.Carrying.{Carried};
ghost use Rattle.dsd_end.specs.Lives.{IsRunOf};
ghost use Rattle.own_turn.specs.OwnTurn.{Desk, StaysLegal, Turned, sets_lent};
ghost use Rattle.dsd_end.specs.PollStep.{Along, Done, Next, bytes_of, gave, joined, nothing, stepped};
ghost use Rattle.dsd_end.specs.PollsHeard.{heard_in, receptions_of};
ghost use Rattle.dsd_end.specs.Runs.{bytes_heard};
ghost use Rattle.dsd_end.specs.SoFar.{MayGoOut, SoFar, with_entries};
ghost use Rattle.dsd_end.specs.Standings.{Standing, first_standing};
ghost use Rattle.own_turn.specs.TurnsGrow.{IsGrown, IsLent, IsNewAs};

/// Polls join and part: some polls and then others are all of them, one after another.
pub fn polls_join()
    ensures more { (chooser : Chooser) (standing : Standing) (one more : List (Option Reception)) (first rest : Done) → Along chooser standing one first
        → Along chooser first.standing more rest → Along chooser standing (one ++ more) (joined first rest) }
    ensures parts { (chooser : Chooser) (standing : Standing) (one more : List (Option Reception)) (done : Done) → Along chooser standing (one ++ more) done
        → (first : Done) × (rest : Done) × Along chooser standing one first × Along chooser first.standing more rest × (done ≡ joined first rest) }
{}

/// Along polls the header stays, no fault comes, legal entries grow and stay legal, and each new entry is chosen on those before it or was
/// lent by some text.
pub fn entries_grow_along_polls()
    ensures header { (chooser : Chooser) (standing : Standing) (polls : List (Option Reception)) (done : Done) → Along chooser standing polls done
        → done.standing.header ≡ standing.header }
    ensures failed { (chooser : Chooser) (standing : Standing) (polls : List (Option Reception)) (done : Done) → Along chooser standing polls done
        → done.standing.failed ≡ standing.failed }
    ensures entries { (chooser : Chooser) (standing : Standing) (polls : List (Option Reception)) (done : Done) → Along chooser standing polls done
        → IsGrown standing.header.role chooser IsLent standing.desk.entries done.standing.desk.entries }
{}

/// Along polls from the first standing on, the line is a run of the state table over what was heard, whose k-th own turn is given the k-th
/// load.
pub fn polls_are_lined()
    ensures { (chooser : Chooser) (header : Header) (entries : List Entry) (polls : List (Option Reception)) (done : Done)
        → Along chooser (first_standing header entries) polls done → done.standing.first ≡ false
        → Lined header.role header.own header.peer (heard_in [] polls) done.loads done.said (end_of done.standing.line) }
{}

/// The polls of an end that was opened over legal entries make a run: entries grow and stay legal, what is signed is chosen, what is taken
/// was carried in what was heard, and what is said is spoken from what was signed.
pub fn polls_make_a_run()
    ensures { (chooser : Chooser) (header : Header) (entries : List Entry) (polls : List (Option Reception)) (done : Done) → IsHeader header → Legal header.role entries
        → Along chooser (first_standing header entries) polls done
        → IsRunOf header.role chooser (record { before = entries; heard = receptions_of polls; gone = bytes_of done; after = done.standing.desk.entries }) }
{}

/// A poll has one outcome, and so has an own turn: what is taken, signed and given is fixed by what is before it.
pub fn polls_have_one_outcome()
    ensures turn { (chooser : Chooser) (header : Header) (old new other : Desk) (text load load' : List ℕ) → Turned header chooser old text new load
        → Turned header chooser old text other load' → (new ≡ other) × (load ≡ load') }
    ensures poll { (chooser : Chooser) (standing : Standing) (poll : Option Reception) (one other : Done) → Next chooser standing poll one
        → Next chooser standing poll other → one ≡ other }
{}

/// A run so far goes on by each step of an end: a frame, a Quiet, an entry, an own turn. At each moment between them, and while a frame goes
/// out, it is a run, whatever was heard besides.
pub fn runs_so_far_go_on()
    ensures starts { (chooser : Chooser) (header : Header) (entries : List Entry) → IsHeader header
        → SoFar header chooser entries [] (nothing (first_standing header entries)) }
    ensures hears { (chooser : Chooser) (header : Header) (first : List Entry) (past piece : List ℕ) (frame : FrameShape) (done : Done) → IsHeader header
        → SoFar header chooser first past done → judge piece ≡ Some frame
        → SoFar header chooser first (past ++ piece) (joined done (stepped done.standing (hears done.standing.line frame))) }
    ensures quiets { (chooser : Chooser) (header : Header) (first : List Entry) (past : List ℕ) (done : Done) → IsHeader header → SoFar header chooser first past done
        → SoFar header chooser first past (joined done (stepped done.standing (quiets done.standing.line))) }
    // The set of an entry that is taken has to be carried: those that the text heard in this turn lends are.
    ensures adds { (chooser : Chooser) (header : Header) (first : List Entry) (past : List ℕ) (done : Done) (entry : Entry) → SoFar header chooser first past done
        → StaysLegal header.role done.standing.desk.entries entry → IsNewAs entry.kind header.role chooser (Carried past) done.standing.desk.entries entry.payload
        → SoFar header chooser first past (with_entries done (done.standing.desk.entries ++ entry ∷ [])) }
    ensures lends { (chooser : Chooser) (header : Header) (first : List Entry) (past : List ℕ) (done : Done) (own : Common) (text set : List ℕ)
        → SoFar header chooser first past done → done.standing.line ≡ Finished own text → Contains (sets_lent text) set → Carried past set }
    ensures turns { (chooser : Chooser) (header : Header) (first : List Entry) (past : List ℕ) (done : Done) (own : Common) (text load : List ℕ) (desk : Desk)
        → SoFar header chooser first past done → done.standing.line ≡ Finished own text → Turned header chooser done.standing.desk text desk load
        → SoFar header chooser first past (joined done (gave done.standing (Finished own text) desk load)) }
    ensures runs { (chooser : Chooser) (header : Header) (first : List Entry) (past rest : List ℕ) (heard : List Reception) (done : Done) → Legal header.role first
        → SoFar header chooser first past done → bytes_heard heard ≡ past ++ rest
        → IsRunOf header.role chooser (record { before = first; heard = heard; gone = bytes_of done; after = done.standing.desk.entries }) }
    ensures cut { (chooser : Chooser) (header : Header) (first : List Entry) (past rest : List ℕ) (heard : List Reception) (done : Done) (frame : FrameShape) (front back : List ℕ)
        → Legal header.role first → SoFar header chooser first past done → bytes_heard heard ≡ past ++ rest → MayGoOut done.standing.desk.entries frame → spelling frame ≡ front ++ back
        → IsRunOf header.role chooser (record { before = first; heard = heard; gone = bytes_of done ++ front; after = done.standing.desk.entries }) }
{}
