//! Laws of the line, each on a function that does nothing.

ghost use Rattle.std.specs.Prelude.{◌≡◌, ◌⊎◌, ◌+◌, ◌∷◌, [], ℕ, Bool, List, Some, None, true, false, codes, length, nat_lt};
ghost use Rattle.dsd_values.specs.Reading.{IsIdText};
ghost use Rattle.dsd_values.specs.declared.comm_id.TheConstants.{COMM_ID_BYTES};
ghost use Rattle.dsd_values.specs.declared.role.Role.{Role as EndRole};
ghost use Rattle.dex_line.specs.FrameShapes.{FrameShape, Enq, Ack0, Ack1, Nak, Eot, Header, Block, Damaged, Bad};
ghost use Rattle.dxs_envelope.specs.Sending.{IsOutgoing};
ghost use Rattle.dxs_envelope.specs.declared.outgoing.TheConstants.{TRANSMISSION_BYTES};
ghost use Rattle.dex_handshake.specs.LineLaw.{AreFit, HandsOn, HasSaidEot, IsAskedNext, IsHandedOn, IsSpokenFirst, IsTaken, StaysAt};
ghost use Rattle.dex_handshake.specs.LineRun.{load_of};
ghost use Rattle.dex_handshake.specs.LineTable.{ends, gives, hears, no_quiets, nothing_taken, quiets, reply_of, says, says_nothing, second_header, started, unplugs, Awaiting, Bidding, Common, Ended, FirstStage, Finished, InText, Line, Partner, Ready, SecondStage, Sending, SentAll, Taking, TextStage};
ghost use Rattle.dex_handshake.specs.Sound.{IsSayable, IsSayableStep, SendsLoad, SendsLoadStep};
ghost use Rattle.dex_handshake.specs.Wire.{wire_of, WireEvent};
ghost use Rattle.dex_handshake.specs.declared.session_end.SessionEnd.TheVariants.{Complete as IsComplete, PartnerRefused as IsRefused, Silent as IsSilent, TextLimit as IsTooLong, TriesSpent as IsSpent, Unplugged as IsUnplugged, WrongPartner as IsWrong};

/// What two ends on a wire can rely on, whatever is lost or damaged there.
pub fn line_law()
    // Each text that an end hands on is the one that the other gave for that turn.
    ensures texts { (own peer its theirs : List ℕ) (texts others : List (List ℕ)) (events : List WireEvent) (role : EndRole)
        → AreFit texts → AreFit others → HandsOn role (wire_of own peer its theirs texts others events) }
    // Where an end has said its Eot, the other has taken every block.
    ensures blocks { (own peer its theirs : List ℕ) (texts others : List (List ℕ)) (events : List WireEvent) (role : EndRole) (text : List ℕ)
        → AreFit texts → AreFit others → HasSaidEot role (wire_of own peer its theirs texts others events) text
        → IsTaken role (wire_of own peer its theirs texts others events) text }
    // Where it hears the next Enq, the other has handed on the whole text.
    ensures turns { (own peer its theirs : List ℕ) (texts others : List (List ℕ)) (events : List WireEvent) (role : EndRole)
        → AreFit texts → AreFit others → IsAskedNext role (wire_of own peer its theirs texts others events)
        → IsHandedOn role (wire_of own peer its theirs texts others events) }
{}

/// A line leaves a block behind at the reply of its parity alone, and it has said that block as it came to it.
pub fn blocks_go_one_by_one()
    ensures moves { (own : Common) (sending : Sending) (frame : FrameShape)
        → (frame ≡ reply_of sending.block) ⊎ StaysAt sending.block (hears (Awaiting own sending) frame).next }
    ensures waits { (own : Common) (sending : Sending) → StaysAt sending.block (quiets (Awaiting own sending)).next }
    ensures spoken { (line : Line) (frame : FrameShape) → IsSpokenFirst line (hears line frame) }
{}

/// No row of the table that leads to an own turn says anything.
pub fn turns_come_silently()
    ensures { (line : Line) (frame : FrameShape) (own : Common) (text : List ℕ)
        → (hears line frame).next ≡ Finished own text → (hears line frame).say ≡ None }
{}

/// Where what a line is sending can be spelled, what it says can, and so it stays.
pub fn what_is_said_can_be_spelled()
    ensures heard { (id : List ℕ) (line : Line) (frame : FrameShape) → IsIdText id → length id ≡ COMM_ID_BYTES
        → IsSayable id line → IsSayableStep id (hears line frame) }
    ensures quiet { (id : List ℕ) (line : Line) → IsIdText id → length id ≡ COMM_ID_BYTES
        → IsSayable id line → IsSayableStep id (quiets line) }
    // It is so at the start, and where a turn is given the blocks of a transmission.
    ensures started { (role : EndRole) (id peer : List ℕ) → IsIdText id → length id ≡ COMM_ID_BYTES
        → IsSayableStep id (started role id peer) }
    ensures given { (id : List ℕ) (line : Line) (text : List ℕ) → IsIdText id → length id ≡ COMM_ID_BYTES
        → IsSayable id line → IsOutgoing text → IsSayableStep id (gives line (load_of text)) }
{}

/// What a line says is a control frame, a header of its own, or a block of the text that its turn was given.
pub fn what_is_said_was_given()
    ensures heard { (id : List ℕ) (load : List FrameShape) (line : Line) (frame : FrameShape) → SendsLoad id load line → SendsLoadStep id load (hears line frame) }
    ensures quiet { (id : List ℕ) (load : List FrameShape) (line : Line) → SendsLoad id load line → SendsLoadStep id load (quiets line) }
    ensures started { (role : EndRole) (id peer : List ℕ) (load : List FrameShape) → SendsLoadStep id load (started role id peer) }
    ensures given { (id : List ℕ) (before : List FrameShape) (own : Common) (heard text : List ℕ)
        → SendsLoad id before (Finished own heard) → SendsLoadStep id (load_of text) (gives (Finished own heard) (load_of text)) }
{}

/// The state table, row by row; what is in no row is ignored, and ends a row of Quiets all the same.
pub fn rows_are_these()
    ensures ready_enq { (own : Common) → hears (Ready own) Enq ≡ says Ack0 (InText (no_quiets own) nothing_taken) }
    ensures bid_some { (own : Common) (frame : FrameShape) (more : List FrameShape) → hears (Bidding own (frame ∷ more)) Ack0
        ≡ says frame (Awaiting (no_quiets own) (record { frame = frame; left = more; block = 1; tries = 1; asked = false })) }
    ensures bid_none { (own : Common) → hears (Bidding (record own { stage = TextStage; empty = false }) []) Ack0
        ≡ says Eot (SentAll (record own { stage = TextStage; empty = true; quiets = 0 })) }
    ensures bid_eot { (own : Common) (load : List FrameShape) → hears (Bidding own load) Eot ≡ says Enq (Bidding (no_quiets own) load) }
    ensures bid_quiet { (own : Common) (load : List FrameShape) → quiets (Bidding (record own { quiets = 28 }) load) ≡ says Enq (Bidding (record own { quiets = 29 }) load) }
    ensures reply_more { (own : Common) (sending : Sending) (frame : FrameShape) (more : List FrameShape)
        → hears (Awaiting own (record sending { left = frame ∷ more; block = 2 })) Ack0
        ≡ says frame (Awaiting (no_quiets own) (record { frame = frame; left = more; block = 3; tries = 1; asked = false })) }
    ensures reply_last { (own : Common) (sending : Sending) → hears (Awaiting (record own { stage = TextStage }) (record sending { left = []; block = 1 })) Ack1
        ≡ says Eot (SentAll (record own { stage = TextStage; empty = false; quiets = 0 })) }
    ensures other_reply { (own : Common) (sending : Sending) → hears (Awaiting own (record sending { block = 2; tries = 9 })) Ack1
        ≡ says sending.frame (Awaiting (no_quiets own) (record sending { block = 2; tries = 10; asked = false })) }
    ensures nak { (own : Common) (sending : Sending) → hears (Awaiting own (record sending { tries = 9; asked = false })) Nak
        ≡ says sending.frame (Awaiting (no_quiets own) (record sending { tries = 10; asked = false })) }
    ensures spent { (own : Common) (sending : Sending) → hears (Awaiting own (record sending { tries = 10; asked = false })) Nak ≡ ends (IsSpent sending.block) }
    ensures nak_behind_enq { (own : Common) (sending : Sending) → hears (Awaiting own (record sending { asked = true })) Nak
        ≡ says Enq (Awaiting (no_quiets own) (record sending { asked = true })) }
    ensures await_quiet { (own : Common) (sending : Sending) → quiets (Awaiting (record own { quiets = 28 }) sending)
        ≡ says Enq (Awaiting (record own { quiets = 29 }) (record sending { asked = true })) }
    ensures sent_enq { (own : Common) → hears (SentAll (record own { stage = SecondStage })) Enq
        ≡ says Ack0 (InText (record own { stage = TextStage; quiets = 0 }) nothing_taken) }
    ensures sent_third { (own : Common) → quiets (SentAll (record own { quiets = 26 })) ≡ says Eot (SentAll (record own { quiets = 27 })) }
    ensures sent_quiet { (own : Common) → quiets (SentAll (record own { quiets = 27 })) ≡ says_nothing (SentAll (record own { quiets = 28 })) }
    ensures text_enq { (own : Common) (taking : Taking) → hears (InText own (record taking { taken = 3 })) Enq ≡ says Ack1 (InText (no_quiets own) (record taking { taken = 3 })) }
    ensures header_first { (own : Common) → hears (InText (record own { stage = FirstStage; partner = None }) nothing_taken) (Header (codes "HH00000001SR01L01"))
        ≡ says Ack1 (InText (record own { stage = FirstStage; partner = Some (record { code = 0; id = codes "HH00000001" }); quiets = 0 }) (record nothing_taken { taken = 1 })) }
    ensures header_later { (own : Common) (partner : Partner) (taking : Taking)
        → hears (InText (record own { stage = SecondStage; partner = Some partner }) (record taking { taken = 1 })) (Header (codes "01RR00000001R01L01"))
        ≡ says Ack1 (InText (record own { stage = SecondStage; partner = Some partner; quiets = 0 }) (record taking { taken = 1 })) }
    ensures header_of_another_form { (own : Common) (taking : Taking) → hears (InText (record own { stage = FirstStage }) taking) (Header (codes "HH0000001SR01L01"))
        ≡ says_nothing (InText (record own { stage = FirstStage; quiets = 0 }) taking) }
    ensures block { (own : Common) → hears (InText (record own { stage = TextStage }) (record { text = codes "A"; taken = 1; whole = false })) (Block true (codes "B"))
        ≡ says Ack0 (InText (record own { stage = TextStage; quiets = 0 }) (record { text = codes "AB"; taken = 2; whole = true })) }
    ensures block_behind_the_last { (own : Common) (taking : Taking) → hears (InText (record own { stage = TextStage }) (record taking { taken = 1; whole = true })) (Block true (codes "B"))
        ≡ says Ack1 (InText (record own { stage = TextStage; quiets = 0 }) (record taking { taken = 1; whole = true })) }
    ensures damaged { (own : Common) (taking : Taking) → hears (InText own taking) Damaged ≡ says Nak (InText (no_quiets own) taking) }
    ensures first_over { (own : Common) (partner : Partner) (taking : Taking) → hears (InText (record own { stage = FirstStage; partner = Some partner }) taking) Eot
        ≡ says Enq (Bidding (record own { stage = SecondStage; partner = Some partner; quiets = 0 }) (second_header own partner ∷ [])) }
    ensures refused { (own : Common) (id : List ℕ) (taking : Taking)
        → hears (InText (record own { stage = SecondStage; partner = Some (record { code = 2; id = id }) }) taking) Eot ≡ ends (IsRefused 2) }
    ensures wrong { (own : Common) (taking : Taking)
        → hears (InText (record own { peer = codes "RR00000001"; stage = SecondStage; partner = Some (record { code = 0; id = codes "RR00000002" }) }) taking) Eot
        ≡ ends (IsWrong (codes "RR00000002")) }
    ensures named { (own : Common) (taking : Taking)
        → hears (InText (record own { peer = codes "RR00000001"; stage = SecondStage; partner = Some (record { code = 0; id = codes "RR00000001" }) }) taking) Eot
        ≡ says_nothing (Finished (record own { peer = codes "RR00000001"; stage = TextStage; partner = None; quiets = 0 }) []) }
    ensures refused_by_the_receiver { (own : Common) (sending : Sending)
        → hears (Awaiting (record own { peer = codes "HH00000001"; stage = SecondStage; partner = Some (record { code = 0; id = codes "HH00000002" }) }) (record sending { left = []; block = 1 })) Ack1
        ≡ says Eot (Ended (IsWrong (codes "HH00000002"))) }
    ensures text_over { (own : Common) (text : List ℕ) → hears (InText (record own { stage = TextStage }) (record { text = text; taken = 1; whole = true })) Eot
        ≡ says_nothing (Finished (record own { stage = TextStage; empty = false; quiets = 0 }) text) }
    ensures text_without_a_last_block { (own : Common) (text : List ℕ) → hears (InText (record own { stage = TextStage }) (record { text = text; taken = 1; whole = false })) Eot
        ≡ says_nothing (Finished (record own { stage = TextStage; empty = false; quiets = 0 }) []) }
    ensures complete { (own : Common) → hears (InText (record own { stage = TextStage; empty = true }) nothing_taken) Eot ≡ ends IsComplete }
    ensures complete_said { (own : Common) → hears (Bidding (record own { stage = TextStage; empty = true }) []) Ack0 ≡ says Eot (Ended IsComplete) }
    ensures given { (own : Common) (text : List ℕ) (load : List FrameShape) → gives (Finished own text) load ≡ says Enq (Bidding own load) }
    ensures unplugged { (own : Common) → unplugs (Ready own) ≡ Ended IsUnplugged }
    ensures thirtieth { (own : Common) (load : List FrameShape) → quiets (Bidding (record own { quiets = 29 }) load) ≡ ends IsSilent }
    ensures ignored { (own : Common) (load : List FrameShape) → hears (Bidding (record own { quiets = 29 }) load) Bad ≡ says_nothing (Bidding (record own { quiets = 0 }) load) }
{}

/// A block that would make a text longer than a transmission ends the session, before anything else is asked of it.
pub fn long_texts_end_a_session()
    ensures { (own : Common) (taking : Taking) (last : Bool) (b : ℕ) (more : List ℕ)
        → nat_lt TRANSMISSION_BYTES (length taking.text + length (b ∷ more)) ≡ true
        → hears (InText (record own { stage = TextStage }) (record taking { whole = false })) (Block last (b ∷ more)) ≡ ends IsTooLong }
{}
