//! Due sets that are gathered.

ghost use Rattle.std.specs.Prelude.{◌≡◌, ◌≤◌, ◌<◌, ◌+◌, ◌^◌, ◌++◌, ◌∷◌, [], OnOk, length, map};
ghost use Rattle.std.specs.List.{concat};
ghost use Rattle.own_turn.specs.DueSets.{DueSet, texts_of};

use dsd_values::{DeliveryNumber, Memory, SetText};
use dxs_envelope::TRANSMISSION_BYTES;
use std::alloc::Global;
use std::marker::Model;

/// Due sets that are gathered, each with the number of its delivery.
#[derive(Drop)]
pub(crate) struct Gathered {
    alloc: Global,
    numbers: Vec<DeliveryNumber>,
    texts: Vec<SetText>,
    /// How many bytes the texts have together.
    bytes: usize,
}

impl Model for Gathered {
    ghost use Rattle.std.specs.Prelude.{◌≡◌, ◌≤◌, List, length};
    ghost use Rattle.std.specs.List.{concat};
    ghost use Rattle.dxs_envelope.specs.declared.outgoing.TheConstants.{TRANSMISSION_BYTES};
    ghost use Rattle.own_turn.specs.DueSets.{DueSet};
    ghost use Rattle.own_turn.specs.GatheredInside.{due_sets_of};

    ghost Value = { List DueSet };

    ghost view = { λ g. due_sets_of g.numbers.items g.texts.items };

    ghost invariant = { λ g. (length g.numbers.items ≡ length g.texts.items) × (g.bytes ≡ length (concat g.texts.items)) × (g.bytes ≤ TRANSMISSION_BYTES) };
}

impl Gathered {
    pub(crate) fn new(alloc: Global) -> Gathered
        ensures { result ≡ [] }
    {
        Gathered {
            alloc,
            numbers: Vec::new(alloc),
            texts: Vec::new(alloc),
            bytes: 0,
        }
    }

    /// How many sets there are.
    pub(crate) fn len(&self) -> usize
        ensures value { result ≡ length self.now }
        ensures small { result < 2 ^ 63 }
    {
        self.texts().len()
    }

    /// How many bytes their texts have together.
    pub(crate) fn bytes(&self) -> usize
        ensures value { result ≡ length (concat (texts_of self.now)) }
        ensures small { result ≤ TRANSMISSION_BYTES }
    {
        self.bytes
    }

    /// The texts of the sets.
    pub(crate) fn texts(&self) -> &[SetText]
        ensures { result.now ≡ texts_of self.now }
    {
        self.texts.as_slice()
    }

    /// The numbers of their deliveries.
    pub(crate) fn numbers(&self) -> &[DeliveryNumber]
        ensures { result.now ≡ map (λ (due : DueSet). due.number) self.now }
    {
        self.numbers.as_slice()
    }

    /// Adds a copy of a set.
    pub(crate) fn push(&mut self, number: &DeliveryNumber, text: &SetText) -> Result<(), Memory>
        requires { length (concat (texts_of self.old)) + length text.now ≤ TRANSMISSION_BYTES }
        ensures { OnOk result (self.new ≡ self.old ++ (record { number = number.now; text = text.now }) ∷ []) }
    {
        let text = text.try_copy(self.alloc)?;
        self.numbers.reserve(1)?;
        self.texts.reserve(1)?;
        self.numbers.push_reserved(number.copy());
        self.bytes += text.as_slice().len();
        self.texts.push_reserved(text);
        Ok(())
    }
}
