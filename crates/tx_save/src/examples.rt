//! What the definitions say of a small save stack. Each function here does nothing: its contract is
//! computed from the definitions.

ghost use Rattle.std.specs.Prelude.{◌≡◌, [], ◌∷◌, pos};
ghost use Rattle.tx_eqtb.specs.declared.meaning.Meaning.{Meaning};
ghost use Rattle.tx_save.specs.declared.group.Group.{Group};
ghost use Rattle.tx_save.specs.Saves.{groups_of};
ghost use Rattle.tx_save.specs.Sample.{outside_at, simple, stack};

/// What a count register is at the levels outside the innermost one.
pub fn levels_outside()
    ensures local { outside_at 3 ≡ Meaning.Int (pos 4) ∷ Meaning.Int (pos 0) ∷ [] }
    ensures global { outside_at 1 ≡ Meaning.Int (pos 8) ∷ Meaning.Int (pos 8) ∷ [] }
    ensures groups { groups_of simple stack ≡ simple ∷ simple ∷ [] }
{}
