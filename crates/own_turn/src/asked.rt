//! What due sets ask of a session.

ghost use Rattle.std.specs.Prelude.{◌≡◌, [], OnOk, fold};
ghost use Rattle.own_turn.specs.AskedInside.{asked_as};
ghost use Rattle.own_turn.specs.DueSets.{asked_of, with_asked, with_known, with_signed, with_spoken};

use dsd_values::{DeliveryNumber, Memory};
use indexmap::IndexMap;
use std::alloc::Global;
use std::marker::Model;

/// What due sets ask of this session, of one delivery.
#[derive(Clone, Copy)]
pub(crate) struct Asking {
    /// How often it has spoken the last signed set.
    pub(crate) times: u64,
    /// A `Known` proposal came after that.
    pub(crate) since: bool,
    /// A `Known` proposal came at all.
    pub(crate) met: bool,
    /// An acceptance was signed.
    pub(crate) accepts: bool,
}

/// What due sets ask of this session.
#[derive(Drop)]
pub(crate) struct AskedSets {
    deliveries: IndexMap<DeliveryNumber, Asking>,
}

impl Model for AskedSets {
    ghost use Rattle.std.specs.Prelude.{List};
    ghost use Rattle.own_turn.specs.AskedInside.{asked_in};
    ghost use Rattle.own_turn.specs.DueSets.{Asked};

    ghost Value = { List Asked };

    ghost view = { λ a. asked_in a.deliveries.entries };
}

impl AskedSets {
    /// Of a session that has not begun.
    pub(crate) fn new(alloc: Global) -> AskedSets
        ensures { result ≡ [] }
    {
        AskedSets {
            deliveries: IndexMap::new(alloc),
        }
    }

    /// Of this delivery.
    pub(crate) fn of(&self, number: &DeliveryNumber) -> Asking
        ensures { asked_as number.now result ≡ asked_of number.now self.now }
    {
        match self.deliveries.get(number) {
            Some(asking) => *asking,
            None => Asking {
                times: 0,
                since: false,
                met: false,
                accepts: false,
            },
        }
    }

    /// A `Known` proposal of this delivery was met.
    pub(crate) fn meet(&mut self, number: &DeliveryNumber) -> Result<(), Memory>
        ensures { OnOk result (self.new ≡ with_known self.old number.now) }
    {
        let mut asking = self.of(number);
        asking.since = true;
        asking.met = true;
        self.put(number, asking)
    }

    /// A set of this delivery was signed, an acceptance or not.
    pub(crate) fn sign(&mut self, number: &DeliveryNumber, acceptance: bool) -> Result<(), Memory>
        ensures { OnOk result (self.new ≡ with_signed self.old number.now acceptance) }
    {
        let mut asking = self.of(number);
        asking.times = 0;
        asking.since = false;
        asking.accepts = asking.accepts || acceptance;
        self.put(number, asking)
    }

    /// The last signed set of this delivery was spoken. Where the count of that would not fit, there is no memory.
    fn speak(&mut self, number: &DeliveryNumber) -> Result<(), Memory>
        ensures { OnOk result (self.new ≡ with_spoken self.old number.now) }
    {
        let mut asking = self.of(number);
        let Some(times) = asking.times.checked_add(1) else {
            return Err(Memory);
        };
        asking.times = times;
        asking.since = false;
        self.put(number, asking)
    }

    /// The last signed sets of these deliveries were spoken.
    pub(crate) fn speak_each(&mut self, numbers: &[DeliveryNumber]) -> Result<(), Memory>
        ensures { OnOk result (self.new ≡ fold with_spoken self.old numbers.now) }
    {
        for number in numbers {
            self.speak(number)?;
        }
        Ok(())
    }

    fn put(&mut self, number: &DeliveryNumber, asking: Asking) -> Result<(), Memory>
        ensures { OnOk result (self.new ≡ with_asked self.old (asked_as number.now asking)) }
    {
        match self.deliveries.insert(number.copy(), asking) {
            Ok(_before) => {}
            Err(_) => return Err(Memory),
        }
        Ok(())
    }
}
