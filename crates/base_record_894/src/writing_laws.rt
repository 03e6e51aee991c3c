//! Laws of base records that are written.

ghost use Rattle.std.specs.Prelude.{◌≡◌, ◌≤◌, ℕ, List, Ok};
ghost use Rattle.segments.specs.SetUnits.{IsSetText};
ghost use Rattle.segments.specs.declared.segment_writer.TheConstants.{MOST_CONTROL_NUMBER};
ghost use Rattle.base_record_894.specs.BaseRecord.{BaseRecord};
ghost use Rattle.base_record_894.specs.RecordText.{Is894, IsBase};
ghost use Rattle.base_record_894.specs.WrittenText.{seal_of, written_of};

/// What is written of a record is a text of that record, sealed with the control number and its check; and it is the
/// text of a set, in units that blocks take whole.
pub fn written_is_read()
    ensures spelled { (base : BaseRecord) (control : ℕ) (text : List ℕ) → control ≤ MOST_CONTROL_NUMBER → IsBase base → written_of base control ≡ Ok text → Is894 base (seal_of base control) text }
    ensures set { (base : BaseRecord) (control : ℕ) (text : List ℕ) → control ≤ MOST_CONTROL_NUMBER → IsBase base → written_of base control ≡ Ok text → IsSetText text }
{}
