//! Gathering due sets.

ghost use Rattle.std.specs.Prelude.{◌≡◌, ◌<◌, ◌≤◌, ◌+◌, ◌++◌, [], ◌∷◌, ℕ, IfOk, IsOk, IsTrue, OnErr, List, Some, fold, if◌then◌else◌, length, map};
ghost use Rattle.std.specs.List.{concat, cons_option};
ghost use Rattle.std.specs.Option.{option_copied, option_map};
ghost use Rattle.dsd_values.specs.Writing.{number_text};
ghost use Rattle.segments.specs.SegmentWriting.{line_of};
ghost use Rattle.dxs_envelope.specs.Sending.{Sent, header_row, trailer_row};
ghost use Rattle.delivery_book.specs.Lookups.{number_at, numbers_of};
ghost use Rattle.own_turn.specs.Desks.{desk_of, text_of};
ghost use Rattle.own_turn.specs.DueSets.{DueSet, asked_of, due_of, due_sets, has_room as has_room_for, is_due as is_set_due, reached, texts_of, with_spoken};
ghost use Rattle.own_turn.specs.OwnTurn.{gathered};
ghost use Rattle.own_turn.specs.Staging.{Speaks};

use super::Desk;
use crate::gathered::Gathered;
use dsd_values::{DeliveryNumber, Memory, SetText, write_plain_number};
use dxs_envelope::{EnvelopeWriteFault, Outgoing, TRANSMISSION_BYTES, write_transmission};
use segments::MOST_CONTROL_NUMBER;

/// The bytes of the envelope of a transmission beside the ids, the control number, which stands there twice, and the number of sets.
const ENVELOPE_BYTES: usize = 28;

impl Desk {
    /// The load of this turn: the transmission of the due sets that it reaches, in the order of their deliveries. They are spoken then.
    pub(super) fn speak(&mut self) -> Result<Option<Outgoing>, Memory>
        requires known { self.old.book.known ≡ self.old.book.entries }
        ensures book { self.new.book ≡ self.old.book }
        ensures exact { IfOk result (λ load. Speaks self.old.book.header (desk_of self.old) (desk_of self.new) (text_of load)) }
        ensures idle { gathered self.old.book.header (desk_of self.old) ≡ [] → IsOk result }
    {
        match self.gather(u64::from(self.turns) + 1) {
            Ok(sets) => self.speak_sets(&sets),
            Err(_) => Err(Memory),
        }
    }

    /// The transmission of these sets, which are spoken then, or nothing where there are none.
    fn speak_sets(&mut self, sets: &Gathered) -> Result<Option<Outgoing>, Memory>
        requires known { self.old.book.known ≡ self.old.book.entries }
        requires sets { sets.now ≡ gathered self.old.book.header (desk_of self.old) }
        ensures book { self.new.book ≡ self.old.book }
        ensures exact { IfOk result (λ load. Speaks self.old.book.header (desk_of self.old) (desk_of self.new) (text_of load)) }
        ensures idle { sets.now ≡ [] → IsOk result }
    {
        if sets.len() == 0 {
            return Ok(None);
        }
        if self.turns >= MOST_CONTROL_NUMBER {
            return Err(Memory);
        }
        let control = self.turns + 1;
        match self.write(sets, control) {
            Ok(load) => self.note_spoken(sets, control, load),
            Err(_) => Err(Memory),
        }
    }

    /// Notes that these sets are spoken, in a transmission with this control number.
    fn note_spoken(
        &mut self,
        sets: &Gathered,
        control: u32,
        load: Outgoing,
    ) -> Result<Option<Outgoing>, Memory>
        ensures book { self.new.book ≡ self.old.book }
        ensures ok { IfOk result (λ some. (some ≡ Some load) × (self.new ≡ record self.old { asked = fold with_spoken self.old.asked (map (λ (due : DueSet). due.number) sets.now); turns = control })) }
    {
        match self.asked.speak_each(sets.numbers()) {
            Ok(()) => {
                self.turns = control;
                Ok(Some(load))
            }
            Err(_) => Err(Memory),
        }
    }

    /// The transmission of the sets that are gathered.
    fn write(&self, sets: &Gathered, control: u32) -> Result<Outgoing, Memory>
        requires known { self.now.book.known ≡ self.now.book.entries }
        requires low { 1 ≤ control }
        requires high { control ≤ MOST_CONTROL_NUMBER }
        requires some { 0 < length sets.now }
        requires sets { sets.now ≡ reached self.now.book.header control [] (due_sets self.now.book.known self.now.asked) }
        ensures { IfOk result (λ load. Sent (texts_of sets.now) self.now.book.header.own self.now.book.header.peer control load) }
    {
        // What is signed in legal entries can go out, and no journal has more entries than there are control numbers.
        let _ = self.book.role();
        let journal = self.book.journal();
        let _ = journal.len();
        let (own, peer) = (journal.own(), journal.peer());
        match write_transmission(self.alloc, own, peer, sets.texts(), control) {
            Ok(load) => Ok(load),
            Err(EnvelopeWriteFault::Memory) => Err(Memory),
            Err(EnvelopeWriteFault::LongText(_)) => unreachable!(),
        }
    }

    /// The due sets in the order of their deliveries, as far as a transmission with this control number reaches.
    fn gather(&self, control: u64) -> Result<Gathered, Memory>
        ensures sets { IfOk result (λ sets. sets ≡ reached self.now.book.header control [] (due_sets self.now.book.known self.now.asked)) }
        ensures some { OnErr result (reached self.now.book.header control [] (due_sets self.now.book.known self.now.asked) ≡ [] → ⊥) }
    {
        let mut gathered = Gathered::new(self.alloc);
        for index in 0..self.book.deliveries() {
            match self.gather_at(&mut gathered, control, index) {
                Ok(true) => {}
                Ok(false) => return Ok(gathered),
                Err(_) => return Err(Memory),
            }
        }
        Ok(gathered)
    }

    /// Gathers the last signed set of a delivery, where it is due and still has room. It answers false where it has none.
    fn gather_at(&self, gathered: &mut Gathered, control: u64, index: usize) -> Result<bool, Memory>
        requires { index < length (numbers_of self.now.book.known) }
        ensures some { OnErr result ((rest : List DueSet) → reached self.now.book.header control gathered.old (cons_option (due_of self.now.book.known self.now.asked (number_at self.now.book.known index)) rest) ≡ [] → ⊥) }
        ensures goes_on { IfOk result (λ goes_on. (rest : List DueSet) → reached self.now.book.header control gathered.old (cons_option (due_of self.now.book.known self.now.asked (number_at self.now.book.known index)) rest)
            ≡ (if goes_on then reached self.now.book.header control gathered.new rest else gathered.new)) }
    {
        match self.due(index) {
            Some(text) => self.gather_set(gathered, control, self.book.number(index), text),
            None => Ok(true),
        }
    }

    /// Gathers a set that still has room. It answers false where it has none.
    fn gather_set(
        &self,
        gathered: &mut Gathered,
        control: u64,
        number: &DeliveryNumber,
        text: &SetText,
    ) -> Result<bool, Memory>
        ensures some { OnErr result ((rest : List DueSet) → reached self.now.book.header control gathered.old ((record { number = number.now; text = text.now }) ∷ rest) ≡ [] → ⊥) }
        ensures goes_on { IfOk result (λ goes_on. (rest : List DueSet) → reached self.now.book.header control gathered.old ((record { number = number.now; text = text.now }) ∷ rest)
            ≡ (if goes_on then reached self.now.book.header control gathered.new rest else gathered.new)) }
    {
        if !self.has_room(gathered, control, text) {
            return Ok(false);
        }
        match gathered.push(number, text) {
            Ok(()) => Ok(true),
            Err(_) => Err(Memory),
        }
    }

    /// Whether the transmission of the gathered sets and this one is not too long.
    fn has_room(&self, gathered: &Gathered, control: u64, text: &SetText) -> bool
        ensures value { (number : List ℕ) → result ≡ has_room_for self.now.book.header control (gathered.now ++ (record { number = number; text = text.now }) ∷ []) }
        ensures room { IsTrue result → length (concat (texts_of gathered.now)) + length text.now ≤ TRANSMISSION_BYTES }
    {
        let bytes = gathered.bytes() + text.as_slice().len();
        self.envelope(control, gathered.len() + 1) + bytes <= TRANSMISSION_BYTES
    }

    /// How many bytes the transmission of so many sets has beside them.
    fn envelope(&self, control: u64, sets: usize) -> usize
        ensures value { result ≡ length (line_of (header_row self.now.book.header.own self.now.book.header.peer control)) + length (line_of (trailer_row control sets)) }
        ensures small { result ≤ 120 }
    {
        let journal = self.book.journal();
        let ids = journal.own().get().len() + journal.peer().get().len();
        ENVELOPE_BYTES + ids + 2 * digits(control) + digits(sets as u64)
    }

    /// The last signed set of a delivery, where it is due.
    fn due(&self, index: usize) -> Option<&SetText>
        requires { index < length (numbers_of self.now.book.known) }
        ensures { option_map (λ (text : List ℕ). record { number = number_at self.now.book.known index; text = text }) (option_copied result) ≡ due_of self.now.book.known self.now.asked (number_at self.now.book.known index) }
    {
        if self.is_due(self.book.number(index)) {
            self.book.last_signed(index)
        } else {
            None
        }
    }

    /// Whether the last signed set of this delivery is due.
    fn is_due(&self, number: &DeliveryNumber) -> bool
        ensures { result ≡ is_set_due self.now.book.known (asked_of number.now self.now.asked) }
    {
        let asking = self.asked.of(number);
        let wanted = self.book.final_of(number).is_none() || asking.met || asking.accepts;
        wanted && (asking.times == 0 || (asking.times == 1 && asking.since))
    }
}

/// How many digits a number has.
fn digits(number: u64) -> usize
    ensures value { result ≡ length (number_text number) }
    ensures small { result ≤ 24 }
{
    write_plain_number(number).len()
}
