//! Laws of the signing rules and of a book.

ghost use Rattle.std.specs.Prelude.{◌≡◌, ◌++◌, ℕ, List, Some};
ghost use Rattle.dsd_values.specs.declared.role.Role.{Role};
ghost use Rattle.dsd_values.specs.declared.role.Role.TheVariants.{Supplier, Receiver};
ghost use Rattle.dsd_record.specs.Version.{Version};
ghost use Rattle.dsd_journal.specs.declared.entry.Entry.{Entry};
ghost use Rattle.dsd_journal.specs.declared.header.Header.{Header};
ghost use Rattle.dsd_journal.specs.JournalImage.{Holds};
ghost use Rattle.delivery_book.specs.Agreement.{AgreeOnFinals, Backed, FinalsAreSigned};
ghost use Rattle.delivery_book.specs.BookImages.{IsBookRefused};
ghost use Rattle.delivery_book.specs.Finals.{final_of};
ghost use Rattle.delivery_book.specs.Signing.{Legal};

/// Two ends that follow the signing rules, of which each took only what the other signed, agree: what is final at both is the
/// same record, and what is final at one was signed by both.
pub fn static_agreement()
    ensures finals { (supplier receiver : List Entry) → Legal Supplier supplier → Legal Receiver receiver → Backed supplier receiver → Backed receiver supplier → AgreeOnFinals supplier receiver }
    ensures supplier { (supplier receiver : List Entry) → Legal Supplier supplier → Legal Receiver receiver → Backed supplier receiver → Backed receiver supplier → FinalsAreSigned supplier receiver }
    ensures receiver { (supplier receiver : List Entry) → Legal Supplier supplier → Legal Receiver receiver → Backed supplier receiver → Backed receiver supplier → FinalsAreSigned receiver supplier }
{}

/// What is final stays so, at the same version, whatever entries follow: ends that finalise at different moments agree too.
pub fn finals_stay()
    ensures { (entries more : List Entry) (number : List ℕ) (version : Version) → final_of entries number ≡ Some version → final_of (entries ++ more) number ≡ Some version }
{}

/// An image is refused as a book of an end at one place, and never where it holds the journal of that end with legal entries.
pub fn a_book_is_refused_at_one_place()
    ensures never_both { (role : Role) (image : List ℕ) (header : Header) (entries : List Entry) (place : ℕ) → Holds header entries image → header.role ≡ role → Legal role entries → IsBookRefused role image place → ⊥ }
    ensures one_place { (role : Role) (image : List ℕ) (place other : ℕ) → IsBookRefused role image place → IsBookRefused role image other → place ≡ other }
{}
