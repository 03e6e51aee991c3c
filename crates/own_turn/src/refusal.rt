//! Why a book adds no set, as a turn sees it.

ghost use Rattle.std.specs.Prelude.{◌≡◌};
ghost use Rattle.own_turn.specs.Staging.{as_refusal, as_unsigned};

use delivery_book::BookFault;
use dsd_journal::StageFault;

/// Why a book adds no set, as a turn sees it.
#[derive(Clone, Copy)]
pub(crate) enum Refusal {
    /// The set was taken before.
    Known,
    /// The rules refuse it.
    Rules,
    /// There is no room for it in the journal, or no memory. The turn ends there.
    Staging(StageFault),
}

pub(crate) fn refusal_of(fault: BookFault) -> Refusal
    ensures { result ≡ as_refusal fault }
{
    match fault {
        BookFault::Full(length) => Refusal::Staging(StageFault::Full(length)),
        BookFault::Memory | BookFault::Station => Refusal::Staging(StageFault::Memory),
        BookFault::Known => Refusal::Known,
        _ => Refusal::Rules,
    }
}

/// What a set that is not signed comes to: a turn goes on behind what the rules refuse.
pub(crate) fn unsigned(fault: BookFault) -> Result<(), StageFault>
    ensures { result ≡ as_unsigned (as_refusal fault) }
{
    match refusal_of(fault) {
        Refusal::Staging(fault) => Err(fault),
        Refusal::Known | Refusal::Rules => Ok(()),
    }
}
