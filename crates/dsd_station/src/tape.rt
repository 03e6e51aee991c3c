ghost use Rattle.std.specs.Prelude.{◌≡◌, ◌≤◌, ◌<◌, ◌+◌, ◌^◌, ◌++◌, [], ◌∷◌, length, OnOk, OnErr, is_some};
ghost use Rattle.dsd_station.specs.Notes.{Fits, IsNote};
ghost use Rattle.dsd_station.specs.Replayed.{state_of, image_or};

use crate::call::{Call, Outcome, Pick};
use crate::handed::Handed;
use crate::ranges::{Range, add, count_of, left_by, put_all, put_first};
use std::alloc::{AllocError, Global};
use std::marker::Model;

/// A journal and a port in memory with the record of their calls, which contracts see. A call that finds no memory
/// for its place in the record leaves all as it was.
#[derive(Drop)]
pub struct Tape {
    alloc: Global,
    calls: Vec<Call>,
    journal: Vec<u8>,
    sure: Vec<u8>,
    pending: Vec<Range>,
    spoken: Vec<u8>,
    stopped: bool,
    image: Vec<u8>,
}

impl Model for Tape {
    ghost use Rattle.std.specs.Prelude.{List};
    ghost use Rattle.dsd_station.specs.declared.call.Call.{Call};
    ghost use Rattle.dsd_station.specs.Tied.{IsTied};

    ghost Value = { List Call };

    ghost view = { λ t. t.calls.items };

    ghost invariant = { IsTied };
}

impl Tape {
    pub fn new(alloc: Global) -> Tape
        ensures { result ≡ [] }
    {
        Tape {
            alloc,
            calls: Vec::new(alloc),
            journal: Vec::new(alloc),
            sure: Vec::new(alloc),
            pending: Vec::new(alloc),
            spoken: Vec::new(alloc),
            stopped: false,
            image: Vec::new(alloc),
        }
    }

    pub fn allocator(&self) -> Global {
        self.alloc
    }

    /// How many calls are in the record.
    pub fn len(&self) -> u64
        ensures value { result ≡ length self.now }
        ensures short { length self.now < 2 ^ 63 }
    {
        self.calls.len() as u64
    }

    pub fn calls(&self) -> &[Call]
        ensures { result.now ≡ self.now }
    {
        &self.calls
    }

    pub fn is_stopped(&self) -> bool
        ensures { result ≡ is_some (state_of self.now).left }
    {
        self.stopped
    }

    pub fn journal(&self) -> &[u8]
        ensures journal { result.now ≡ (state_of self.now).journal }
        ensures small { length result.now < 2 ^ 63 }
    {
        &self.journal
    }

    pub fn spoken(&self) -> &[u8]
        ensures value { result.now ≡ (state_of self.now).now.gone }
        ensures short { length self.now < 2 ^ 63 }
    {
        &self.spoken
    }

    /// The image that a stop left, or the journal.
    pub fn image(&self) -> &[u8]
        ensures value { result.now ≡ image_or (state_of self.now).left (state_of self.now).journal }
        ensures short { length self.now < 2 ^ 63 }
    {
        if self.stopped {
            &self.image
        } else {
            &self.journal
        }
    }

    /// Adds a call that leaves the bytes as they are.
    fn note(&mut self, call: Call) -> Result<(), AllocError>
        requires { IsNote (state_of self.old) call }
        ensures ok { OnOk result (self.new ≡ self.old ++ call ∷ []) }
        ensures err { OnErr result (self.new ≡ self.old) }
    {
        self.calls.push(call)?;
        Ok(())
    }

    /// Adds a write that goes well, and does it.
    fn write(&mut self, at: u64, bytes: Handed) -> Result<(), AllocError>
        requires { at ≤ length (state_of self.old).journal }
        ensures ok { OnOk result (self.new ≡ self.old ++ Call.Write at bytes Outcome.Done ∷ []) }
        ensures err { OnErr result (self.new ≡ self.old) }
    {
        let place = at as usize;
        let range = Range::new(self.alloc, place, bytes.as_slice())?;
        self.calls.reserve(1)?;
        self.pending.reserve(1)?;
        self.journal.reserve(bytes.as_slice().len())?;
        put_all(&mut self.journal, place, bytes.as_slice());
        self.pending.push_reserved(range);
        let outcome = Outcome::Done;
        self.calls.push_reserved(Call::Write { at, bytes, outcome });
        Ok(())
    }

    /// Adds a write within which the station stops.
    fn stop_write(&mut self, at: u64, bytes: Handed, pick: Pick) -> Result<(), AllocError>
        requires { at ≤ length (state_of self.old).journal }
        ensures ok { OnOk result (self.new ≡ self.old ++ Call.Write at bytes (Outcome.Stopped pick) ∷ []) }
        ensures err { OnErr result (self.new ≡ self.old) }
    {
        let count = count_of(pick, bytes.as_slice().len());
        let mut image = left_by(self.alloc, &self.sure, &self.pending, pick)?;
        put_first(&mut image, at as usize, bytes.as_slice(), count)?;
        let outcome = Outcome::Stopped(pick);
        self.calls.push(Call::Write { at, bytes, outcome })?;
        self.image = image;
        self.stopped = true;
        Ok(())
    }

    /// Adds a sync that goes well.
    fn sync(&mut self) -> Result<(), AllocError>
        ensures ok { OnOk result (self.new ≡ self.old ++ Call.Sync Outcome.Done ∷ []) }
        ensures err { OnErr result (self.new ≡ self.old) }
    {
        let sure = self.journal.to_vec(self.alloc)?;
        let outcome = Outcome::Done;
        self.calls.push(Call::Sync { outcome })?;
        self.sure = sure;
        self.pending.clear();
        Ok(())
    }

    /// Adds a sync within which the station stops.
    fn stop_sync(&mut self, pick: Pick) -> Result<(), AllocError>
        ensures ok { OnOk result (self.new ≡ self.old ++ Call.Sync (Outcome.Stopped pick) ∷ []) }
        ensures err { OnErr result (self.new ≡ self.old) }
    {
        let image = left_by(self.alloc, &self.sure, &self.pending, pick)?;
        let outcome = Outcome::Stopped(pick);
        self.calls.push(Call::Sync { outcome })?;
        self.image = image;
        self.stopped = true;
        Ok(())
    }

    /// Adds a `speak` that goes well.
    fn speak(&mut self, bytes: Handed) -> Result<(), AllocError>
        ensures ok { OnOk result (self.new ≡ self.old ++ Call.Speak bytes Outcome.Done ∷ []) }
        ensures err { OnErr result (self.new ≡ self.old) }
    {
        self.calls.reserve(1)?;
        self.spoken.reserve(bytes.as_slice().len())?;
        add(&mut self.spoken, bytes.as_slice());
        let outcome = Outcome::Done;
        self.calls.push_reserved(Call::Speak { bytes, outcome });
        Ok(())
    }

    /// Adds a `speak` within which the station stops.
    fn stop_speak(&mut self, bytes: Handed, pick: Pick) -> Result<(), AllocError>
        ensures ok { OnOk result (self.new ≡ self.old ++ Call.Speak bytes (Outcome.Stopped pick) ∷ []) }
        ensures err { OnErr result (self.new ≡ self.old) }
    {
        let count = count_of(pick, bytes.as_slice().len());
        let image = left_by(self.alloc, &self.sure, &self.pending, pick)?;
        self.calls.reserve(1)?;
        self.spoken.reserve(count)?;
        add(&mut self.spoken, &bytes.as_slice()[..count]);
        let outcome = Outcome::Stopped(pick);
        self.calls.push_reserved(Call::Speak { bytes, outcome });
        self.image = image;
        self.stopped = true;
        Ok(())
    }

    /// Adds a restart: over the image that a stop left, or over the journal as it is.
    fn restart(&mut self) -> Result<(), AllocError>
        ensures ok { OnOk result (self.new ≡ self.old ++ Call.Restart ∷ []) }
        ensures err { OnErr result (self.new ≡ self.old) }
    {
        if !self.stopped {
            return self.note(Call::Restart);
        }
        let journal = self.image.to_vec(self.alloc)?;
        let sure = self.image.to_vec(self.alloc)?;
        self.calls.push(Call::Restart)?;
        self.journal = journal;
        self.sure = sure;
        self.pending.clear();
        self.stopped = false;
        Ok(())
    }

    /// Adds a call, and does what it says.
    pub fn play(&mut self, call: Call) -> Result<(), AllocError>
        requires { Fits (state_of self.old) call }
        ensures ok { OnOk result (self.new ≡ self.old ++ call ∷ []) }
        ensures err { OnErr result (self.new ≡ self.old) }
    {
        match call {
            Call::Write { at, bytes, outcome } => self.play_write(at, bytes, outcome),
            Call::Sync { outcome } => self.play_sync(outcome),
            Call::Speak { bytes, outcome } => self.play_speak(bytes, outcome),
            Call::Restart => self.restart(),
            Call::Attach { .. } | Call::Size { .. } | Call::Read { .. } | Call::Listen { .. } => {
                self.note(call)
            }
        }
    }

    fn play_write(&mut self, at: u64, bytes: Handed, outcome: Outcome) -> Result<(), AllocError>
        requires { at ≤ length (state_of self.old).journal }
        ensures ok { OnOk result (self.new ≡ self.old ++ Call.Write at bytes outcome ∷ []) }
        ensures err { OnErr result (self.new ≡ self.old) }
    {
        match outcome {
            Outcome::Done => self.write(at, bytes),
            Outcome::Failing => self.note(Call::Write { at, bytes, outcome }),
            Outcome::Stopped(pick) => self.stop_write(at, bytes, pick),
        }
    }

    fn play_sync(&mut self, outcome: Outcome) -> Result<(), AllocError>
        ensures ok { OnOk result (self.new ≡ self.old ++ Call.Sync outcome ∷ []) }
        ensures err { OnErr result (self.new ≡ self.old) }
    {
        match outcome {
            Outcome::Done => self.sync(),
            Outcome::Failing => self.note(Call::Sync { outcome }),
            Outcome::Stopped(pick) => self.stop_sync(pick),
        }
    }

    fn play_speak(&mut self, bytes: Handed, outcome: Outcome) -> Result<(), AllocError>
        ensures ok { OnOk result (self.new ≡ self.old ++ Call.Speak bytes outcome ∷ []) }
        ensures err { OnErr result (self.new ≡ self.old) }
    {
        match outcome {
            Outcome::Done => self.speak(bytes),
            Outcome::Failing => self.note(Call::Speak { bytes, outcome }),
            Outcome::Stopped(pick) => self.stop_speak(bytes, pick),
        }
    }
}
