//! A frame that is lent out of captured bytes.

ghost use Rattle.std.specs.Prelude.{◌≡◌};
ghost use Rattle.dex_line.specs.Captured.{is_refused};
ghost use Rattle.dex_line.specs.FrameShapes.{captured_seen};

/// A frame of captured bytes, whose text is lent out of them.
///
/// The text of a header or block has at least one byte, and printable characters, CR and LF alone.
#[derive(Debug, Clone, Copy)]
pub enum Captured<'a> {
    /// Asks for the line.
    Enq,
    /// Answers an enquiry and every second frame.
    Ack0,
    /// Answers the first frame of a turn and every second one after it.
    Ack1,
    /// Asks for the frame again.
    Nak,
    /// Ends a turn.
    Eot,
    /// Names the ends of the line.
    Header(&'a [u8]),
    /// A part of a text, or the last part of it.
    Block { last: bool, text: &'a [u8] },
    /// A header or block whose check is another one.
    Damaged,
    /// What is no frame.
    Bad,
}

impl<'a> Captured<'a> {
    /// Whether the reading ends with it.
    pub fn is_refused(self) -> bool
        ensures { result ≡ is_refused (captured_seen self.entry) }
    {
        matches!(self, Captured::Damaged | Captured::Bad)
    }
}
