ghost use Rattle.std.specs.Prelude.{◌≡◌, ◌+◌, ◌<◌, ◌≤◌, ◌^◌, ℕ, List, ◌++◌, length, OnOk};
ghost use Rattle.dsd_station.specs.Pieces.{HoldsMore};

use dsd_values::Memory;

/// What the bytes of a source are handed to, piece by piece.
pub trait Taker {
    /// Whether this is what it holds behind these bytes.
    ghost holds: { Self → List ℕ → Type 0 };

    /// How far it has come in them, at most.
    ghost reach: { Self → ℕ };

    /// Takes the bytes that come next. Only want of memory keeps it from that, and then it is of no more use.
    fn take(&mut self, piece: &[u8]) -> Result<(), Memory>
        requires { reach self.old + length piece.now < 2 ^ 64 }
        ensures holds { OnOk result (HoldsMore holds self.old self.new piece.now) }
        ensures reach { OnOk result (reach self.new ≤ reach self.old + length piece.now) };
}

impl Taker for Vec<u8> {
    ghost holds = { λ kept bytes. kept.items ≡ bytes };

    ghost reach = { λ _. 0 };

    /// Keeps them all.
    fn take(&mut self, piece: &[u8]) -> Result<(), Memory>
        ensures holds { OnOk result ((before : List ℕ) → self.old.items ≡ before → self.new.items ≡ before ++ piece.now) }
        ensures reach { OnOk result (0 ≤ 0 + length piece.now) }
    {
        self.extend_from_slice(piece)?;
        Ok(())
    }
}
