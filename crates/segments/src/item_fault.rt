//! Why the elements of a segment are refused.

ghost use Rattle.std.specs.Prelude.{◌≡◌};
ghost use Rattle.segments.specs.declared.item_fault.ItemFault.TheVariants.{Memory as WantOfMemory};

use dsd_values::{Memory, ValueFault};
use thiserror::Error;

/// Why a segment is refused by its elements.
#[derive(Clone, Copy, Debug, PartialEq, Eq, Drop, Error)]
pub enum ItemFault {
    /// The first element that is refused, by its number from 1, and why.
    #[error("element {element}: {fault}")]
    Value { element: usize, fault: ValueFault },
    /// Memory is wanting.
    #[error("memory is wanting")]
    Memory,
}

impl From<Memory> for ItemFault {
    ghost from_gives = { λ _ fault. fault ≡ WantOfMemory };

    fn from(_memory: Memory) -> ItemFault {
        ItemFault::Memory
    }
}
