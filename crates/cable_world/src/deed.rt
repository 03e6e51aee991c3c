//! What the leading word of an event says is to happen.

ghost use Rattle.std.specs.Prelude.{◌≡◌};
ghost use Rattle.plain_lines.specs.PlainText.{piece_of};
ghost use Rattle.cable_world.specs.EventReading.{cable_deed, deed_of, end_deed, word_count as count_of};

use plain_lines::PlainLine;

/// The kinds of events.
#[derive(Clone, Copy, Debug, PartialEq, Eq)]
pub(crate) enum Deed {
    Start,
    Pass,
    Lose,
    Break,
    Again,
    Quiet,
    Unplug,
    Hear,
    Stop,
    Fail,
    Clean,
}

impl Deed {
    /// What a line says is to happen, by its leading word.
    pub(crate) fn of(line: &PlainLine<'_>) -> Option<Deed>
        ensures { result ≡ deed_of line.now }
    {
        match Deed::of_cable(line) {
            Some(deed) => Some(deed),
            None => Deed::of_end(line),
        }
    }

    /// What happens to the frames that wait, or to both ends.
    fn of_cable(line: &PlainLine<'_>) -> Option<Deed>
        ensures { result ≡ cable_deed (piece_of line.now 0) }
    {
        if line.leads(b"PASS") {
            Some(Deed::Pass)
        } else if line.leads(b"LOSE") {
            Some(Deed::Lose)
        } else if line.leads(b"BREAK") {
            Some(Deed::Break)
        } else if line.leads(b"UNPLUG") {
            Some(Deed::Unplug)
        } else if line.leads(b"CLEAN") {
            Some(Deed::Clean)
        } else {
            None
        }
    }

    /// What happens to one end.
    fn of_end(line: &PlainLine<'_>) -> Option<Deed>
        ensures { result ≡ end_deed (piece_of line.now 0) }
    {
        if line.leads(b"START") {
            Some(Deed::Start)
        } else if line.leads(b"AGAIN") {
            Some(Deed::Again)
        } else if line.leads(b"QUIET") {
            Some(Deed::Quiet)
        } else if line.leads(b"HEAR") {
            Some(Deed::Hear)
        } else if line.leads(b"STOP") {
            Some(Deed::Stop)
        } else if line.leads(b"FAIL") {
            Some(Deed::Fail)
        } else {
            None
        }
    }

    /// How many words such a line has, the leading one counted.
    pub(crate) fn word_count(self) -> usize
        ensures { result ≡ count_of self }
    {
        match self {
            Deed::Lose | Deed::Break | Deed::Unplug | Deed::Clean => 1,
            Deed::Start | Deed::Pass => 2,
            Deed::Again | Deed::Quiet | Deed::Hear | Deed::Fail => 3,
            Deed::Stop => 4,
        }
    }
}
