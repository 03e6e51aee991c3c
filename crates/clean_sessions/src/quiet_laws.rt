//! Laws of sessions whose own turns are foretold to speak few blocks.

ghost use Rattle.std.specs.Prelude.{[], All, List, ℕ, ◌*◌, ◌≡◌};
ghost use Rattle.base_record_894.specs.RecordText.{IsBase};
ghost use Rattle.dsd_values.specs.declared.role.Role.TheVariants.{Supplier};
ghost use Rattle.dsd_record.specs.Choices.{Chooser};
ghost use Rattle.dsd_journal.specs.Headers.{IsId};
ghost use Rattle.dsd_journal.specs.declared.entry.Entry.{Entry};
ghost use Rattle.clean_sessions.specs.Beginnings.{IsCleanSession, opened, receiver_header, seat_before, supplier_header};
ghost use Rattle.clean_sessions.specs.DeliveryStands.{AreBacked};
ghost use Rattle.clean_sessions.specs.FewBlocks.{HaveRoom, SignAtMost, SpeakAtMost, SpendsFew, most_blocks};
ghost use Rattle.clean_sessions.specs.Halls.{Hall};
ghost use Rattle.clean_sessions.specs.QuietHalls.{GoesQuietly};
ghost use Rattle.clean_sessions.specs.SeatTurns.{IsFresh, MeetForTurns, Seat};
ghost use Rattle.clean_sessions.specs.Sessions.{Spoken};

/// From two ends that were opened over any entries and whose ids match, a session in which every frame is delivered goes quietly, however many frames
/// that takes: no end hears so many bytes that they are noise, and none finds its journal full. That is so where own turns from these lists, by these
/// choosers, speak at most 1,299 blocks, and where the journals have room for what these turns add.
pub fn foretold_sessions_go_quietly()
    ensures { (id other : List ℕ) (supplier receiver : Chooser) (supplier_entries receiver_entries : List Entry) → IsId id → IsId other
        → SpeakAtMost most_blocks (seat_before (supplier_header id other) supplier supplier_entries) (seat_before (receiver_header id other) receiver receiver_entries) []
        → HaveRoom (seat_before (supplier_header id other) supplier supplier_entries) (seat_before (receiver_header id other) receiver receiver_entries) [] → (frames : ℕ)
        → GoesQuietly frames (opened id other supplier receiver supplier_entries receiver_entries) }
{}

/// A clean session spends no more than its own turns were foretold to spend: of blocks as many, and of polls of each end 24 for each of these blocks and 60
/// more. With at most 1,299 blocks each end has heard fewer than 2,000,000 bytes.
pub fn foretold_sessions_spend_few()
    ensures { (id other : List ℕ) (supplier receiver : Chooser) (supplier_entries receiver_entries : List Entry) (first : Spoken) (more : List Spoken) (new : Hall) → IsId id → IsId other
        → All IsBase supplier.drafts → All IsBase receiver.drafts → AreBacked Supplier supplier_entries receiver_entries → IsCleanSession id other supplier receiver supplier_entries receiver_entries first more new
        → (most : ℕ) → SpeakAtMost most (seat_before (supplier_header id other) supplier supplier_entries) (seat_before (receiver_header id other) receiver receiver_entries) [] → SpendsFew most first more new }
{}

/// What own turns speak has at most twice the blocks that both ends sign in them, of each delivery from its last set before on; and from two empty lists
/// each set is spoken once.
pub fn signed_blocks_bound_spoken_ones()
    ensures twice { (near far : Seat) (most : ℕ) → MeetForTurns near far [] [] → IsFresh near → IsFresh far → SignAtMost most near far [] → SpeakAtMost (2 * most) near far [] }
    ensures once { (near far : Seat) (most : ℕ) → MeetForTurns near far [] [] → IsFresh near → IsFresh far → near.header.role ≡ Supplier → near.desk.entries ≡ [] → far.desk.entries ≡ []
        → SignAtMost most near far [] → SpeakAtMost most near far [] }
{}
