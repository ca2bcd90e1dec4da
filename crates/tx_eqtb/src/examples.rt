//! What the definitions say of a small table. Each function here does nothing: its contract is computed
//! from the definitions.

ghost use Rattle.std.specs.Prelude.{◌≡◌, [], ◌∷◌, pos};
ghost use Rattle.tx_eqtb.specs.declared.meaning.Meaning.{Meaning};
ghost use Rattle.tx_eqtb.specs.Tables.{now, before, held};
ghost use Rattle.tx_eqtb.specs.Sample.{count, sample, frozen};

/// What addresses mean in a frozen table.
pub fn frozen_meanings()
    ensures entry { frozen (count 1) ≡ Meaning.Int (pos 7) }
    ensures none { frozen (count 2) ≡ Meaning.Int (pos 0) }
{}

/// A table in which count registers 1 and 2 were set by a region, and 3 before it.
pub fn table()
    ensures now_set { now frozen sample (count 1) ≡ Meaning.Int (pos 8) }
    ensures now_frozen { now frozen sample (count 4) ≡ Meaning.Int (pos 0) }
    ensures before_frozen { before frozen sample (count 1) ≡ Meaning.Int (pos 7) }
    ensures before_kept { before frozen sample (count 2) ≡ Meaning.Int (pos 4) }
    ensures before_same { before frozen sample (count 3) ≡ Meaning.Int (pos 6) }
    ensures all { held sample ≡ Meaning.Int (pos 8) ∷ Meaning.Int (pos 5) ∷ Meaning.Int (pos 6) ∷ Meaning.Int (pos 4) ∷ [] }
{}
