ghost use Rattle.std.specs.Prelude.{[], ◌∷◌, ◌++◌, Err, IfErr, IfOk, MatchOption, None, Ok, Some, length, ◌+◌, ◌<◌, ◌^◌, ◌≡◌, ◌≤◌};
ghost use Rattle.segments.specs.Streaming.{Decides, EndsSo, IsOpen, JudgesOn, Stops, Takes, after_piece, begun_at, ended_by, fault_at_end, lasting as lasting_fault, reached, stream_start, taken_by, without_told};
ghost use Rattle.segments.specs.declared.segment_fault.SegmentFault.{SegmentFault};

use crate::segment::{SEGMENT_BYTES, Segment};
use crate::segment_body::PartEnds;
use crate::segment_fault::SegmentFault;
use crate::segment_reader::{first, judged_front};
use arrayvec::ArrayVec;
use memchr::memchr;
use std::marker::Model;

/// As many bytes as decide what stands at the front of a text: those of the longest segment, and one more.
const DECIDING_BYTES: usize = SEGMENT_BYTES + 1;

type HeldBytes = ArrayVec<u8, DECIDING_BYTES>;

/// Reads the segments of a text that comes in pieces. It holds one segment, and takes no memory.
#[derive(Drop)]
pub struct SegmentStream {
    held: HeldBytes,
    ends: PartEnds,
    place: usize,
    // Whether the bytes that are held are a segment that ended, and not one that is begun.
    whole: bool,
    fault: Option<SegmentFault>,
}

impl Model for SegmentStream {
    ghost use Rattle.segments.specs.Streaming.{KeepsStream, Stream, stream_of};

    ghost Value = { Stream };

    ghost view = { λ s. stream_of s.place s.held.items s.whole s.fault };

    ghost invariant = { λ s. KeepsStream s.place s.held.items s.ends.items s.whole };
}

impl SegmentStream {
    /// A stream at the front of a text, whose places it counts from 0.
    pub fn new() -> SegmentStream
        ensures { result ≡ stream_start }
    {
        SegmentStream {
            held: ArrayVec::new(),
            ends: PartEnds::new(),
            place: 0,
            whole: false,
            fault: None,
        }
    }

    /// Takes the bytes of a piece up to the end of the segment that is begun, and answers how many it took: all of them, or
    /// those through the terminator of a segment, which `segment` then lends. A fault is answered at the first byte at which
    /// it stands, and then by each call.
    pub fn take(&mut self, piece: &[u8]) -> Result<usize, SegmentFault>
        requires placed { reached self.old + length piece.now < 2 ^ 64 }
        ensures left { self.new ≡ after_piece self.old piece.now }
        ensures answer { result ≡ taken_by self.old self.new }

        // Where it goes on, a reader of the whole text would read the same, whatever comes behind the piece.
        ensures took { IfOk result (λ size. Takes self.old self.new piece.now size) }
        ensures refused { IfErr result (λ fault. Stops self.old piece.now fault) }
    {
        self.hear(piece)
    }

    /// Takes one byte, and answers whether it ends a segment, which `segment` then lends.
    pub fn push(&mut self, byte: u8) -> Result<bool, SegmentFault>
        requires placed { reached self.old + 1 < 2 ^ 64 }
        ensures left { self.new ≡ after_piece self.old (byte ∷ []) }
        ensures answer { result ≡ ended_by self.new }
        ensures took { IfOk result (λ _. Takes self.old self.new (byte ∷ []) 1) }
        ensures refused { IfErr result (λ fault. Stops self.old (byte ∷ []) fault) }
    {
        match self.hear(&[byte]) {
            Ok(_) => Ok(self.whole),
            Err(fault) => Err(fault),
        }
    }

    /// The segment that the last byte ended.
    pub fn segment(&self) -> Option<Segment<'_>>
        ensures { result ≡ self.now.told }
    {
        if !self.whole {
            return None;
        }
        Some(Segment::new(self.place, self.held.as_slice(), copied(&self.ends)))
    }

    /// Whether the text may end here: no segment is begun.
    pub fn end(&self) -> Result<(), SegmentFault>
        ensures answer { MatchOption (fault_at_end self.now) (result ≡ Ok tt) (λ fault. result ≡ Err fault) }

        // So a reader of the text ends here.
        ensures over { self.now.fault ≡ None → EndsSo result self.now.begun }
        ensures waits { IsOpen self.now.begun }
    {
        let begun = self.begun();
        if let Some(fault) = self.fault {
            return Err(fault);
        }
        match begun {
            Some(start) => Err(SegmentFault::NoEnd(start)),
            None => Ok(()),
        }
    }

    /// Where the segment that is begun starts.
    fn begun(&self) -> Option<usize>
        ensures value { result ≡ begun_at self.now.begun }
        ensures waits { IsOpen self.now.begun }
    {
        if self.whole || self.held.is_empty() {
            return None;
        }
        Some(self.place)
    }

    /// The place of the byte that comes next.
    pub fn place(&self) -> usize
        ensures { result ≡ reached self.now }
    {
        self.place + self.held.len()
    }

    fn hear(&mut self, piece: &[u8]) -> Result<usize, SegmentFault>
        requires placed { reached self.old + length piece.now < 2 ^ 64 }
        ensures left { self.new ≡ after_piece self.old piece.now }
        ensures answer { result ≡ taken_by self.old self.new }
        ensures waits { IsOpen self.old.begun }
    {
        self.let_go();
        if let Some(fault) = self.fault {
            return Err(fault);
        }
        self.hear_on(piece)
    }

    /// Lends the segment that ended no more.
    fn let_go(&mut self)
        ensures value { self.new ≡ without_told self.old }
        ensures waits { IsOpen self.old.begun }
    {
        if self.whole {
            self.place += self.held.len();
            self.held.clear();
            self.whole = false;
        }
    }

    fn hear_on(&mut self, piece: &[u8]) -> Result<usize, SegmentFault>
        requires placed { reached self.old + length piece.now < 2 ^ 64 }
        requires untold { self.old.told ≡ None }
        requires sound { self.old.fault ≡ None }
        ensures left { self.new ≡ after_piece self.old piece.now }
        ensures answer { result ≡ taken_by self.old self.new }
    {
        let before = self.held.len();
        match judge_on(self.place, &mut self.held, &mut self.ends, piece) {
            Ok(whole) => {
                self.whole = whole;
                Ok(self.held.len() - before)
            }
            Err(fault) => {
                self.fault = Some(fault);
                Err(fault)
            }
        }
    }
}

/// Holds the bytes of a piece up to the end of the segment that is begun, and answers whether it ends there.
fn judge_on(
    place: usize,
    held: &mut HeldBytes,
    ends: &mut PartEnds,
    piece: &[u8],
) -> Result<bool, SegmentFault>
    requires waits { IsOpen (record { rest = held.old.items; place = place }) }
    requires placed { place + length held.old.items + length piece.now < 2 ^ 64 }
    ensures { JudgesOn place held.old.items piece.now held.new.items ends.new.items result }
{
    ends.clear();
    // Nearly every segment stands whole in one piece.
    if held.is_empty() {
        return judge_first(place, held, ends, piece);
    }
    judge_more(place, held, ends, piece)
}

/// Judges a segment where it stands in a piece, and holds it then.
fn judge_first(
    place: usize,
    held: &mut HeldBytes,
    ends: &mut PartEnds,
    piece: &[u8],
) -> Result<bool, SegmentFault>
    requires nothing { held.old.items ≡ [] }
    requires empty { ends.old.items ≡ [] }
    requires placed { place + length piece.now < 2 ^ 64 }
    ensures { JudgesOn place [] piece.now held.new.items ends.new.items result }
{
    match judged_front(place, piece, ends) {
        Ok(size) => {
            hold(held, first(piece, size));
            Ok(true)
        }
        Err(fault) => match lasting(fault) {
            Some(fault) => Err(fault),
            None => {
                hold(held, piece);
                Ok(false)
            }
        },
    }
}

/// Judges what is held with the bytes of a piece that decide.
#[inline(never)]
fn judge_more(
    place: usize,
    held: &mut HeldBytes,
    ends: &mut PartEnds,
    piece: &[u8],
) -> Result<bool, SegmentFault>
    requires waits { IsOpen (record { rest = held.old.items; place = place }) }
    requires empty { ends.old.items ≡ [] }
    requires placed { place + length held.old.items + length piece.now < 2 ^ 64 }
    ensures { JudgesOn place held.old.items piece.now held.new.items ends.new.items result }
{
    hold(held, deciding(piece, DECIDING_BYTES - held.len()));
    match judged_front(place, held.as_slice(), ends) {
        Ok(size) => {
            held.truncate(size);
            Ok(true)
        }
        Err(fault) => match lasting(fault) {
            Some(fault) => {
                held.clear();
                Err(fault)
            }
            None => Ok(false),
        },
    }
}

/// The first bytes of a piece: all, or those through the first LF, or as many as there is room for.
fn deciding(piece: &[u8], room: usize) -> &[u8]
    ensures { Decides piece.now result.now room }
{
    let near = &piece[..piece.len().min(room)];
    match memchr(b'\n', near) {
        Some(feed) => &near[..=feed],
        None => near,
    }
}

fn hold(held: &mut HeldBytes, bytes: &[u8])
    requires { length held.old.items + length bytes.now ≤ DECIDING_BYTES }
    ensures { held.new.items ≡ held.old.items ++ bytes.now }
{
    if held.try_extend_from_slice(bytes).is_err() {
        unreachable!();
    }
}

/// The fault, where it stands whatever follows.
fn lasting(fault: SegmentFault) -> Option<SegmentFault>
    ensures { result ≡ lasting_fault fault }
{
    match fault {
        SegmentFault::NoEnd(_) => None,
        fault => Some(fault),
    }
}

fn copied(ends: &PartEnds) -> PartEnds
    ensures { result.items ≡ ends.now.items }
{
    let mut copy = PartEnds::new();
    if copy.try_extend_from_slice(ends.as_slice()).is_err() {
        unreachable!();
    }
    copy
}
