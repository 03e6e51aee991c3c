ghost use Rattle.std.specs.Prelude.{◌≡◌, ◌≤◌, ℕ, length, IfOk, OnErr};
ghost use Rattle.dsd_station.specs.Causes.{HasCause};
ghost use Rattle.dsd_station.specs.Told.{Told, ReadMayStay};
ghost use Rattle.dsd_station.specs.Effects.{Attaches, Reads, ReadsFront, Writes, Syncs, Listens, LeavesRest, Speaks, IsPiece};

use crate::Failed;
use crate::call::Call;

/// What a `listen` heard.
#[derive(Clone, Copy, Debug, PartialEq, Eq)]
pub enum Heard {
    /// So many bytes, from 1 to 64, at the front of the buffer.
    Bytes(usize),
    /// Nothing came.
    Quiet,
    /// The cable is unplugged.
    Unplugged,
}

/// The device that an end runs on: its memory, which is the journal's file, and its cable, which is the port.
///
/// A stop may come at any moment. Between two syncs it may leave any bytes in each range written and past the old
/// end; what `Told` tells has each pair of an image and bytes gone out that a stop may leave.
pub trait Station {
    /// Whether it tells its content. The clauses on content hold where it does.
    ghost tells: { Type 0 };

    /// What it tells.
    ghost told: { Self → Told };

    /// How many calls have failed, up to the last value of 64 bits. It never falls.
    ghost faults: { Self → ℕ };

    /// Opens the journal and the port. An empty name of a port means that no port is used.
    fn attach(&mut self, journal: &str, port: &str) -> Result<(), Failed>
        ensures cause { HasCause (faults self.old) (faults self.new) result }
        ensures told { tells → Attaches journal.now port.now result (told self.old) (told self.new) }
        ensures stays { tells → ReadMayStay (told self.new) };

    /// The journal's length.
    fn size(&mut self) -> Result<u64, Failed>
        ensures cause { HasCause (faults self.old) (faults self.new) result }
        ensures size { tells → IfOk result (λ size. size ≡ length (told self.old).journal) }
        ensures told { tells → Reads (Call.Size result) (told self.old) (told self.new) }
        ensures stays { tells → ReadMayStay (told self.new) };

    /// Reads bytes of the journal from a place on. A count of 0 is the journal's end, where the buffer is not empty.
    /// Past the count the buffer stays as it was.
    fn read_at(&mut self, at: u64, into: &mut [u8]) -> Result<usize, Failed>
        ensures cause { HasCause (faults self.old) (faults self.new) result }
        ensures bound { IfOk result (λ n. n ≤ length into.new) }
        ensures bytes { tells → IfOk result (λ n. ReadsFront at n (told self.old).journal into.old into.new) }
        ensures untouched { tells → OnErr result (into.new ≡ into.old) }
        ensures told { tells → Reads (Call.Read at (length into.old) result) (told self.old) (told self.new) }
        ensures stays { tells → ReadMayStay (told self.new) };

    /// Writes over what is there, and past the end. The place is at most the journal's length.
    fn write_at(&mut self, at: u64, from: &[u8]) -> Result<(), Failed>
        requires { tells → at ≤ length (told self.old).journal }
        ensures cause { HasCause (faults self.old) (faults self.new) result }
        ensures told { tells → Writes at from.now result (told self.old) (told self.new) }
        ensures stays { tells → ReadMayStay (told self.new) };

    /// Makes sure of the journal: a stop leaves what a read gives.
    fn sync(&mut self) -> Result<(), Failed>
        ensures cause { HasCause (faults self.old) (faults self.new) result }
        ensures told { tells → Syncs result (told self.old) (told self.new) }
        ensures stays { tells → ReadMayStay (told self.new) };

    /// Hears bytes, that nothing comes, or that the cable is unplugged.
    fn listen(&mut self, into: &mut [u8; 64]) -> Result<Heard, Failed>
        ensures cause { HasCause (faults self.old) (faults self.new) result }
        ensures piece { IfOk result IsPiece }
        ensures rest { tells → LeavesRest result into.old into.new }
        ensures told { tells → Listens into.new result (told self.old) (told self.new) }
        ensures stays { tells → ReadMayStay (told self.new) };

    /// Sends the bytes. A stop within it may have sent any first part of them.
    fn speak(&mut self, bytes: &[u8]) -> Result<(), Failed>
        ensures cause { HasCause (faults self.old) (faults self.new) result }
        ensures told { tells → Speaks bytes.now result (told self.old) (told self.new) }
        ensures stays { tells → ReadMayStay (told self.new) };
}
