//! Laws of runs and lives.

ghost use Rattle.std.specs.Prelude.{All, Bool, List, ℕ, ◌++◌, ◌≡◌};
ghost use Rattle.std.specs.List.{Contains, concat};
ghost use Rattle.dsd_values.specs.declared.role.Role.{Role};
ghost use Rattle.dsd_values.specs.declared.role.Role.TheVariants.{Receiver, Supplier};
ghost use Rattle.segments.specs.SegmentSpelling.{SpellsSegments};
ghost use Rattle.segments.specs.Views.{Seg};
ghost use Rattle.dex_line.specs.Occurrence.{Occurs};
ghost use Rattle.dsd_record.specs.SetTexts.{IsSet};
ghost use Rattle.dsd_record.specs.declared.set_view.SetView.{SetView};
ghost use Rattle.dsd_journal.specs.declared.entry.Entry.{Entry};
ghost use Rattle.delivery_book.specs.Agreement.{Backed};
ghost use Rattle.delivery_book.specs.Signing.{Legal};
ghost use Rattle.dsd_end.specs.Agreement.{Agree};
ghost use Rattle.dsd_end.specs.Cabling.{IsHonestCable, NoClash};
ghost use Rattle.dsd_end.specs.Carrying.{texts_in};
ghost use Rattle.dsd_end.specs.Lives.{IsLife, last_list};
ghost use Rattle.dsd_end.specs.Runs.{Run};
ghost use Rattle.dsd_end.specs.Sealing.{IsBlockOf, IsSealedByOne, IsSomeSet};
ghost use Rattle.dsd_end.specs.Speaking.{AreSigned, IsCutFrom, Speaks};

/// However blocks are lost, repeated, reordered or visibly damaged, and wherever either end is unplugged or stopped, inside a disk
/// write too: what both ends finalise is the same record, what one finalises was signed by both, and each end holds every signature
/// that it ever sent.
pub fn lives_agree()
    ensures { (supplier receiver : List Run) → IsLife Supplier supplier → IsLife Receiver receiver → IsHonestCable supplier receiver → NoClash supplier receiver → Agree supplier receiver }
{}

/// A life leaves a legal list, and two lives over one cable leave two of which each one's taken sets are among the other's signed ones.
pub fn lives_leave_backed_lists()
    ensures legal { (role : Role) (runs : List Run) → IsLife role runs → Legal role (last_list runs) }
    ensures supplier { (supplier receiver : List Run) → IsLife Supplier supplier → IsLife Receiver receiver → IsHonestCable supplier receiver → NoClash supplier receiver → Backed (last_list supplier) (last_list receiver) }
    ensures receiver { (supplier receiver : List Run) → IsLife Supplier supplier → IsLife Receiver receiver → IsHonestCable supplier receiver → NoClash supplier receiver → Backed (last_list receiver) (last_list supplier) }
{}

/// A set that was put together from blocks of transmissions of signed sets, taken in any order, repeated or left out, has its G85 and its SE
/// from one block and from one signed set: so it has the control number and the integrity value of that set.
pub fn seals_come_from_one_set()
    ensures { (signed : List (List ℕ)) (blocks : List (List ℕ × Bool)) (before text rest : List ℕ) (segments : List Seg) (set : SetView) → All IsSomeSet signed → All (IsBlockOf (Contains signed)) blocks
        → concat (texts_in blocks) ≡ before ++ (text ++ rest) → SpellsSegments 0 segments before → IsSet set text → IsSealedByOne (Contains signed) blocks text set }
{}

/// A data block that occurs in the bytes that an end spoke is one of the frames that it said, and so it is cut from a written transmission of
/// signed sets.
pub fn spoken_blocks_are_frames()
    ensures { (out : List ℕ) (entries : List Entry) (last : Bool) (text : List ℕ) → Speaks out entries → Occurs last text out → (sets : List (List ℕ)) × IsCutFrom sets last text × AreSigned sets entries }
{}
