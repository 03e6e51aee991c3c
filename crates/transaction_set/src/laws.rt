//! The law of the order of a set.

ghost use Rattle.std.specs.Prelude.{List, Some, ◌↔◌, ◌≡◌};
ghost use Rattle.transaction_set.specs.Kinds.{next_phase};
ghost use Rattle.transaction_set.specs.Order.{InOrder, MayFollow, phase_behind};
ghost use Rattle.transaction_set.specs.declared.kind.Form.{Form};
ghost use Rattle.transaction_set.specs.declared.kind.Kind.{Kind};
ghost use Rattle.transaction_set.specs.declared.phase.Phase.{Phase};
ghost use Rattle.transaction_set.specs.declared.phase.Phase.TheVariants as phases;

/// A segment may stand behind others exactly where some rest makes them a set's order, and the set is whole exactly where
/// they are one.
pub fn order_is_the_grammar()
    ensures follows { (form : Form) (ks : List Kind) (p : Phase) (k : Kind) → phase_behind form phases.Start ks ≡ Some p
        → (MayFollow form ks k ↔ ((q : Phase) × (next_phase p k form ≡ Some q))) }
    ensures whole { (form : Form) (ks : List Kind) → InOrder form ks ↔ (phase_behind form phases.Start ks ≡ Some phases.Done) }
{}
