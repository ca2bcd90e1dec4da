//! What the definitions say of numbers that are held. Each function here does nothing: its contract is
//! computed from the definitions.

ghost use Rattle.std.specs.Prelude.{◌≡◌, [], ◌∷◌, None, Some};
ghost use Rattle.tx_tok.specs.declared.tok.Tok.TheVariants as tok;
ghost use Rattle.tx_store.specs.Steps.{holding, count_of, content_of};

/// A list that no reference holds is gone, and one that two hold is held twice.
pub fn held()
    ensures gone { holding (tok.Stop ∷ []) 0 ≡ None }
    ensures twice { holding (tok.Stop ∷ []) 2 ≡ Some (record { content = tok.Stop ∷ []; count = 2 }) }
    ensures count { count_of (holding (tok.Stop ∷ []) 2) ≡ 2 }
    ensures content { content_of (holding (tok.Stop ∷ []) 2) ≡ tok.Stop ∷ [] }
    ensures no_count { count_of None ≡ 0 }
{}
