//! Laws of the images that hold a journal, each on a function that does nothing.

ghost use Rattle.std.specs.Prelude.{◌≡◌, ◌⊎◌, ℕ, List};
ghost use Rattle.dsd_journal.specs.declared.entry.Entry.{Entry};
ghost use Rattle.dsd_journal.specs.declared.header.Header.{Header};
ghost use Rattle.dsd_journal.specs.FirstBad.{IsRefused};
ghost use Rattle.dsd_journal.specs.JournalImage.{Holds};

/// An image holds at most one list of entries, under one header.
pub fn an_image_holds_one_list()
    ensures { (image : List ℕ) (one other : Header) (entries others : List Entry) → Holds one entries image → Holds other others image
        → (one ≡ other) × (entries ≡ others) }
{}

/// An image holds a journal or is refused, and that at one place.
pub fn an_image_is_held_or_refused()
    ensures either { (image : List ℕ) → ((header : Header) × (entries : List Entry) × Holds header entries image) ⊎ ((place : ℕ) × IsRefused image place) }
    ensures never_both { (image : List ℕ) (header : Header) (entries : List Entry) (place : ℕ) → Holds header entries image → IsRefused image place → ⊥ }
    ensures one_place { (image : List ℕ) (place other : ℕ) → IsRefused image place → IsRefused image other → place ≡ other }
{}
