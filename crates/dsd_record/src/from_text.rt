//! Reading a set of either form from its text.

ghost use Rattle.std.specs.Prelude.{◌≡◌, ◌<◌, ◌≤◌, length, IfOk, None, OnOk, Some};
ghost use Rattle.dsd_values.specs.declared.limits.TheConstants.{SET_BYTES};
ghost use Rattle.transaction_set.specs.Refusal.{Answers, IsWithin};
ghost use Rattle.transaction_set.specs.declared.kind.Form.TheVariants as forms;
ghost use Rattle.dsd_record.specs.ReadSets.{set_in};
ghost use Rattle.dsd_record.specs.SetTexts.{IsSet, begins_as, set_refusal};
ghost use Rattle.dsd_record.specs.declared.set_view.SetView.{SetView as Set};

use crate::set_view::SetView;
use adjustment_895::read_895;
use base_record_894::read_894;
use segments::SegmentReader;
use std::alloc::Global;
use transaction_set::{Form, SetFault, is_start_of};

/// Reads the set of a text: an answer where the text begins as one, else a base record.
pub fn set_of(alloc: Global, text: &[u8]) -> Result<SetView, SetFault>
    // What is read is spelled so.
    ensures found { IfOk result (λ set. IsSet set text.now) }
    ensures read { IfOk result (λ set. set_in text.now ≡ Some set) }
    ensures sized { OnOk result ((0 < length text.now) × (length text.now ≤ SET_BYTES)) }

    // What is spelled so is read, unless memory runs out.
    ensures only { (set : Set) → IsSet set text.now → Answers result None (λ x. x ≡ set) }

    // It is refused as the set that it begins as.
    ensures exact { Answers result (set_refusal text.now) (λ _. Unit {0}) }
    ensures within { IsWithin result (length text.now) }
{
    if begins_as_answer(text) {
        let (answer, seal) = read_895(alloc, text)?;
        return Ok(SetView::Answer(answer, seal));
    }
    let (base, seal) = read_894(alloc, text)?;
    Ok(SetView::Base(base, seal))
}

/// Whether the first segment is the ST of an answer.
#[tactic(auto, unfolding(crate::specs::SetTexts::begins_as))]
fn begins_as_answer(text: &[u8]) -> bool
    ensures { result ≡ begins_as forms.Answer text.now }
{
    match SegmentReader::new(text).next() {
        Ok(Some(segment)) => is_start_of(Form::Answer, &segment),
        _ => false,
    }
}
