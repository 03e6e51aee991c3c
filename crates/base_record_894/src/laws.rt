//! Laws of the text of a base record.

ghost use Rattle.std.specs.Prelude.{◌≡◌, ◌≤◌, ℕ, List, None, Ok, Some, false, length};
ghost use Rattle.dsd_pricing.specs.Pricing.{totals_of};
ghost use Rattle.dsd_pricing.specs.declared.amounts.Totals.{Totals};
ghost use Rattle.dsd_values.specs.SignatureRecord.{IsSignature, SignatureRecord};
ghost use Rattle.dsd_values.specs.declared.extra.Extra.{Extra};
ghost use Rattle.dsd_values.specs.declared.limits.TheConstants.{MOST_LINES};
ghost use Rattle.dsd_values.specs.declared.line.Line.{Line};
ghost use Rattle.transaction_set.specs.SoundLines.{AreSoundExtras, AreSoundLines};
ghost use Rattle.transaction_set.specs.Refusal.{Refusal};
ghost use Rattle.transaction_set.specs.declared.seal.Seal.{Seal};
ghost use Rattle.base_record_894.specs.BaseRecord.{BaseRecord};
ghost use Rattle.base_record_894.specs.FirstRefusal.{refusal_of};
ghost use Rattle.base_record_894.specs.Making.{IsPlainHead, record_made};
ghost use Rattle.base_record_894.specs.RecordText.{Is894, IsBase};
ghost use Rattle.base_record_894.specs.declared.head.BaseHead.{BaseHead};

/// A text spells at most one record, sealed in one way.
pub fn one_record()
    ensures { (text : List ℕ) (base other : BaseRecord) (seal seal' : Seal) → Is894 base seal text → Is894 other seal' text → (base ≡ other) × (seal ≡ seal') }
{}

/// A text either spells a record or has a refusal.
pub fn spelled_or_refused()
    ensures spelled { (text : List ℕ) → refusal_of text ≡ None → (base : BaseRecord) × (seal : Seal) × Is894 base seal text }
    ensures refused { (text : List ℕ) (refusal : Refusal) → refusal_of text ≡ Some refusal → (base : BaseRecord) (seal : Seal) → Is894 base seal text → ⊥ }
{}

/// Plain head fields, sound rows that have a price, and a signature make a base record; and the rows of a base record are sound.
pub fn made_of_sound_rows()
    ensures made { (head : BaseHead) (lines : List Line) (extras : List Extra) (signature : SignatureRecord) (totals : Totals) → IsPlainHead head → AreSoundLines lines → length lines ≤ MOST_LINES → AreSoundExtras false extras
        → IsSignature signature → totals_of lines extras ≡ Ok totals → IsBase (record_made head lines extras signature) }
    ensures lines { (base : BaseRecord) → IsBase base → AreSoundLines base.lines }
    ensures extras { (base : BaseRecord) → IsBase base → AreSoundExtras false base.extras }
{}
