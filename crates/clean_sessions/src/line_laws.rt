//! Laws of a session on a line where every frame is delivered.

ghost use Rattle.std.specs.Prelude.{Bool, List, length, ℕ, ◌≤◌};
ghost use Rattle.dex_line.specs.TextUnits.{UnitsFit};
ghost use Rattle.dxs_envelope.specs.declared.outgoing.TheConstants.{TRANSMISSION_BYTES};
ghost use Rattle.dsd_journal.specs.Headers.{IsId};
ghost use Rattle.dex_handshake.specs.LineTable.{Common};
ghost use Rattle.clean_sessions.specs.CleanHeaders.{HeadersPass};
ghost use Rattle.clean_sessions.specs.CleanTurns.{ArePair, Passes, next_hearer, next_owner};

/// A turn of texts in which every frame is delivered costs the Enq and a frame for each block, each with its reply, and an Eot. It hands on its
/// text; where it is the second one in succession without a block, it ends the session at both ends. Else the two ends stand so again.
pub fn turns_pass()
    ensures whole { (owner hearer : Common) (text : List ℕ) → ArePair owner hearer → UnitsFit text → length text ≤ TRANSMISSION_BYTES → Passes owner hearer text }
    ensures again { (owner hearer : Common) (none : Bool) → ArePair owner hearer → ArePair (next_owner hearer none) (next_hearer owner none) }
{}

/// The turns with the headers, between two ends whose ids match: each has one frame, and the supplier's first turn of texts comes next.
pub fn headers_pass()
    ensures { (id other : List ℕ) → IsId id → IsId other → HeadersPass id other }
{}
