//! The choices of an end.

ghost use Rattle.std.specs.Prelude.{◌≡◌, ◌<◌, ◌↔◌, All, IfOk, IsSome, length, slice_get};
ghost use Rattle.std.specs.Option.{option_copied};
ghost use Rattle.base_record_894.specs.RecordText.{IsBase};
ghost use Rattle.dsd_record.specs.Choices.{AreDraftsApart, Chooser, ChoosesSoundly};

use crate::choice::Choice;
use crate::record::DsdRecord;
use base_record_894::Base;
use dsd_values::{Cents, DeliveryNumber, Memory, Signature};
use std::alloc::Global;

/// What an end proposes, how it answers proposals, and what it signs with.
pub trait Decider: Drop {
    /// All of this as plain data.
    ghost chooser: { Self → Chooser };

    /// How many deliveries it proposes.
    fn drafts(&self) -> usize
        ensures value { result ≡ length (chooser self.now).drafts }

        // Each is one that some text spells, and no two have the same delivery number.
        ensures bases { All IsBase (chooser self.now).drafts }
        ensures apart { AreDraftsApart (chooser self.now).drafts };

    /// The draft at a place, the first at 0.
    fn draft(&self, index: usize) -> Option<&Base>
        ensures found { IsSome result ↔ (index < length (chooser self.now).drafts) }
        ensures value { option_copied result ≡ slice_get (chooser self.now).drafts index };

    /// What the delivery with this number is signed with, where it is known.
    fn signature(&self, number: &DeliveryNumber) -> Option<&Signature>
        ensures { option_copied result ≡ (chooser self.now).signature number.now };

    /// What is done on a proposal of the partner. The amount is that of the last proposal that this end made of the
    /// delivery, where it made one.
    fn choose(
        &self,
        alloc: Global,
        seen: &DsdRecord,
        own_amount: Option<Cents>,
    ) -> Result<Choice, Memory>
        ensures value { IfOk result (λ choice. choice ≡ (chooser self.now).choice seen.now own_amount) }

        // On a version with sound lines and no DSD number twice, an adjustment has a line, its lines are sound, and no DSD
        // number stands twice among them.
        ensures sound { ChoosesSoundly (chooser self.now) };
}
