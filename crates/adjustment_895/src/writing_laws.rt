//! Laws of answers that are written.

ghost use Rattle.std.specs.Prelude.{◌≡◌, ◌≤◌, ℕ, List, Ok};
ghost use Rattle.segments.specs.SetUnits.{IsSetText};
ghost use Rattle.segments.specs.declared.segment_writer.TheConstants.{MOST_CONTROL_NUMBER};
ghost use Rattle.adjustment_895.specs.AnswerRecord.{AnswerRecord};
ghost use Rattle.adjustment_895.specs.AnswerText.{Is895, IsAnswer};
ghost use Rattle.adjustment_895.specs.WrittenText.{seal_of, written_of};

/// What is written of an answer is a text of that answer, sealed with the control number and its check; and it is the
/// text of a set, in units that blocks take whole.
pub fn written_is_read()
    ensures spelled { (answer : AnswerRecord) (control : ℕ) (text : List ℕ) → control ≤ MOST_CONTROL_NUMBER → IsAnswer answer → written_of answer control ≡ Ok text → Is895 answer (seal_of answer control) text }
    ensures set { (answer : AnswerRecord) (control : ℕ) (text : List ℕ) → control ≤ MOST_CONTROL_NUMBER → IsAnswer answer → written_of answer control ≡ Ok text → IsSetText text }
{}
