//! What holds of the environments that states stand for.

ghost use Rattle.std.specs.Prelude.{◌≡◌, ℕ, ◌+◌, List, [], ◌∷◌, ◌++◌, Option};
ghost use Rattle.std.specs.Option.{option_to_list};
ghost use Rattle.tx_node.specs.declared.BoxNode.{BoxNode};
ghost use Rattle.tx_eqtb.specs.declared.meaning.Meaning.{Meaning};
ghost use Rattle.tx_eqtb.specs.Meanings.{Map};
ghost use Rattle.tx_eqtb.specs.Tables.{SameCounts};
ghost use Rattle.tx_views.specs.Views.{View};
ghost use Rattle.tx_environment.specs.States.{State, environment};
ghost use Rattle.tx_environment.specs.Steps.{held};
ghost use Rattle.tx_environment.specs.Holding.{HasNoPooled, IsCountedIn, SameContents, counted};

/// What a state stands for depends on the contents of those pooled lists alone that it holds, where the frozen map
/// has none.
pub fn same_environment()
    ensures { (view other : View) (frozen : Map BoxNode) (e : State) → HasNoPooled frozen → SameContents (IsCountedIn (held e)) view other → environment view frozen e ≡ environment other frozen e }
{}

/// How often a pooled list is held changes by what goes in and by what is handed out: by the meaning that an
/// assignment gives and the one that it hands out, and by what a step of `close`, `keep`, `undo`, `abandon` or `empty`
/// hands out.
pub fn counts()
    ensures assigned { (old new : State) (m : Meaning BoxNode) (out : Option (Meaning BoxNode)) → SameCounts (m ∷ held old) (option_to_list out ++ held new) → (id : ℕ) → counted id (m ∷ []) + counted id (held old) ≡ counted id (option_to_list out) + counted id (held new) }
    ensures handed_out { (old new : State) (out : List (Meaning BoxNode)) → SameCounts (held old) (out ++ held new) → (id : ℕ) → counted id (held old) ≡ counted id out + counted id (held new) }
{}
