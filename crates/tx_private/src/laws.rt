//! What holds of the definitions themselves.

ghost use Rattle.std.specs.Prelude.{◌≡◌, ℕ, Bool, List};
ghost use Rattle.tx_private.specs.Readings.{Kind, Item};
ghost use Rattle.tx_private.specs.World.{World};
ghost use Rattle.tx_private.specs.Reads.{Result, Reads};
ghost use Rattle.tx_private.specs.Region.{Outcome, State, Region};

/// A reading ends in one way at the most.
pub fn one_end()
    ensures { (k : Kind) (items : List Item) (w : World) (r s : Result) → Reads k items w r → Reads k items w s → r ≡ s }
{}

/// A region has one outcome at the most, and leaves one state.
pub fn one_outcome()
    ensures { (s : State) (preamble : Bool) (text : List ℕ) (budget : ℕ) (o p : Outcome) (a b : State) → Region s preamble text budget o a → Region s preamble text budget p b → (o ≡ p) × (a ≡ b) }
{}
