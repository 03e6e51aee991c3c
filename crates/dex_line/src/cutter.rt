//! A cutter, which cuts a text into blocks.

ghost use Rattle.std.specs.Prelude.{◌≡◌, ◌<◌, ◌∷◌, true, [], length, IfSome, MatchOption};
ghost use Rattle.std.specs.List.{list_all};
ghost use Rattle.dex_line.specs.BlockCut.{blocks_of, IsFirstBlock, Marks};
ghost use Rattle.dex_line.specs.Bytes.{is_text};
ghost use Rattle.dex_line.specs.FrameSpelling.{IsTextOf};
ghost use Rattle.dex_line.specs.TextUnits.{UnitsFit};

use super::frame::Opened;
use super::units::filled;
use std::marker::Model;

/// The most bytes of a block that is written.
pub const BLOCK_WRITTEN: usize = 245;

/// Cuts a text into the fewest blocks of whole units, from the front. A contract sees it as what is left of the text.
///
/// A unit is a segment with its terminator, but a G85 and the SE behind it are one.
#[derive(Debug, Drop)]
pub struct Cutter<'a> {
    rest: &'a [u8],
}

impl<'a> Model for Cutter<'a> {
    ghost use Rattle.std.specs.Prelude.{ℕ, List};
    ghost use Rattle.dex_line.specs.TextUnits.{UnitsFit};

    ghost Value = { List ℕ };

    ghost view = { λ cutter. cutter.rest.now };

    ghost invariant = { λ cutter. UnitsFit cutter.rest.now };
}

impl<'a> Cutter<'a> {
    /// A cutter of a text whose units have at most `BLOCK_WRITTEN` bytes each.
    pub fn new(text: &'a [u8]) -> Cutter<'a>
        requires { UnitsFit text.now }
        ensures { result ≡ text.now }
    {
        Cutter { rest: text }
    }

    /// The next block, with `true` where it is the last one.
    #[tactic(auto, using(crate::proofs::Spoken::block_said))]
    pub fn next(&mut self) -> Option<(&'a [u8], bool)>
        ensures block { MatchOption result ((self.old ≡ []) × (self.new ≡ []))
            (λ x. IsFirstBlock self.old x.0.now self.new) }
        ensures marks { IfSome result (λ x. Marks x.1 self.new) }
        // The same as the blocks of the text, for callers that compute.
        ensures blocks { MatchOption result (blocks_of self.old ≡ []) (λ x. blocks_of self.old ≡ (x.0.now, x.1) ∷ blocks_of self.new) }
        ensures left { UnitsFit self.new }
        // A block of a text of text bytes can be said.
        ensures said { IfSome result (λ x. list_all is_text self.old ≡ true
            → IsTextOf Opened.Block x.0.now × (list_all is_text self.new ≡ true)) }
    {
        self.cut()
    }

    fn cut(&mut self) -> Option<(&'a [u8], bool)>
        ensures fit { UnitsFit self.old }
        ensures left { UnitsFit self.new }
        ensures block { MatchOption result ((self.old ≡ []) × (self.new ≡ []))
            (λ x. IsFirstBlock self.old x.0.now self.new) }
        ensures marks { IfSome result (λ x. Marks x.1 self.new) }
    {
        if self.rest.is_empty() {
            return None;
        }
        let (block, rest) = first_block(self.rest);
        self.rest = rest;
        Some((block, rest.is_empty()))
    }
}

/// The first block of a text, and what is left.
fn first_block(text: &[u8]) -> (&[u8], &[u8])
    requires some { 0 < length text.now }
    requires fit { UnitsFit text.now }
    ensures block { IsFirstBlock text.now result.0.now result.1.now }
    ensures fit { UnitsFit result.1.now }
{
    text.split_at(filled(text, BLOCK_WRITTEN))
}
