//! The blocks of a transmission that goes out.

ghost use Rattle.std.specs.Prelude.{◌≡◌, ◌+◌, ◌≤◌, length, drop};
ghost use Rattle.dex_line.specs.FrameShapes.{answer_seen};
ghost use Rattle.dex_line.specs.TextUnits.{UnitsFit};
ghost use Rattle.dex_line.specs.declared.cutter.TheConstants.{BLOCK_WRITTEN};
ghost use Rattle.dex_handshake.specs.LineRun.{load_of};
ghost use Rattle.dex_handshake.specs.StateSeen.{from_place, load_seen, present_frame};

use super::load::Load;
use dex_line::{Cutter, Frame};
use dxs_envelope::Outgoing;
use std::marker::Model;

/// The blocks of a transmission from a place on, or no block.
///
/// A block is cut once, when it becomes the present one; its size is kept for each time that it is said.
#[derive(Debug, Drop)]
pub struct TextLoad {
    text: Option<Outgoing>,
    from: usize,
    size: usize,
    passed: u32,
}

impl Model for TextLoad {
    ghost use Rattle.dex_handshake.specs.StateSeen.{text_seen, IsPlaced, LoadSeen};

    ghost Value = { LoadSeen };

    ghost view = { λ t. text_seen t.text t.from t.passed };

    ghost invariant = { λ t. IsPlaced t.text t.from t.size t.passed };
}

impl TextLoad {
    /// The blocks of a transmission, or none.
    pub(crate) fn new(text: Option<Outgoing>) -> TextLoad
        ensures left { result.left ≡ load_seen text }
        ensures done { result.done ≡ 0 }
    {
        match text {
            Some(text) => {
                // That it can be cut is known of the text that it lends.
                let _ = text.as_slice();
                TextLoad::placed(text, 0, 0)
            }
            None => TextLoad {
                text: None,
                from: 0,
                size: 0,
                passed: 0,
            },
        }
    }

    /// The blocks from a place on, behind so many.
    #[tactic(auto, using(crate::proofs::Loads::outgoing_short))]
    fn placed(text: Outgoing, from: usize, passed: u32) -> TextLoad
        requires inside { from ≤ length text }
        requires each { passed ≤ from }
        requires fit { UnitsFit (drop from text) }
        ensures left { result.left ≡ load_of (drop from text) }
        ensures done { result.done ≡ passed }
    {
        let size = block_size(text.as_slice(), from);
        TextLoad {
            text: Some(text),
            from,
            size,
            passed,
        }
    }
}

impl Load for TextLoad {
    ghost left = { λ t. t.left };

    ghost done = { λ t. t.done };

    fn frame(&self) -> Option<Frame> {
        let Some(text) = &self.text else {
            return None;
        };
        block_at(text.as_slice(), self.from, self.size)
    }

    fn number(&self) -> u32 {
        self.passed + 1
    }

    fn pass(self) -> TextLoad {
        let TextLoad {
            text,
            from,
            size,
            passed,
        } = self;
        let Some(text) = text else { unreachable!() };
        TextLoad::placed(text, from + size, passed + 1)
    }
}

/// The block of this size from a place of a text on.
fn block_at(text: &[u8], from: usize, size: usize) -> Option<Frame>
    requires inside { from + size ≤ length text.now }
    requires short { size ≤ BLOCK_WRITTEN }
    requires present { load_of (drop from text.now) ≡ from_place text.now from size }
    ensures { answer_seen result ≡ present_frame (load_of (drop from text.now)) }
{
    if size == 0 {
        return None;
    }
    let end = from + size;
    Some(Frame::block(end == text.len(), &text[from..end]))
}

/// How many bytes the first block of a text from a place on has; none where nothing is left.
fn block_size(text: &[u8], from: usize) -> usize
    requires inside { from ≤ length text.now }
    requires fit { UnitsFit (drop from text.now) }
    ensures present { load_of (drop from text.now) ≡ from_place text.now from result }
    ensures inside { from + result ≤ length text.now }
    ensures short { result ≤ BLOCK_WRITTEN }
    ensures fit { UnitsFit (drop (from + result) text.now) }
{
    match Cutter::new(behind(text, from)).next() {
        Some((block, _last)) => block.len(),
        None => 0,
    }
}

fn behind(text: &[u8], from: usize) -> &[u8]
    requires { from ≤ length text.now }
    ensures { result.now ≡ drop from text.now }
{
    &text[from..]
}
