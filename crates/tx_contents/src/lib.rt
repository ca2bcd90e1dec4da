//! What a run means, and the state of a session, depend on the contents of those pooled lists alone that are held. So the
//! number of a list that nothing holds any more may be given to another one.
#![tactic(auto)]

ghost use Rattle.std.specs.Prelude.{◌≡◌, ℕ, Bool};
ghost use Rattle.tx_node.specs.declared.BoxNode.{BoxNode};
ghost use Rattle.tx_eqtb.specs.Meanings.{Map};
ghost use Rattle.tx_eqtb.specs.Tables.{now, before};
ghost use Rattle.tx_private.specs.Reads.{Result};
ghost use Rattle.tx_views.specs.Meanings.{map_in};
ghost use Rattle.tx_environment.specs.Holding.{HasNoPooled};
ghost use Rattle.tx_scene.specs.declared.scene.Scene.{Scene};
ghost use Rattle.tx_scene.specs.Scenes.{Ground};
ghost use Rattle.tx_run.specs.declared.run.Run.{Run};
ghost use Rattle.tx_run.specs.Knowledge.{KnowsRun};
ghost use Rattle.tx_run.specs.Runs.{Means};
ghost use Rattle.tx_contents.specs.Contents.{SameGround, IsHeldIn, IsHeldBy};

/// A fact; it does nothing. A run goes on in the same way with other contents of lists that it doesn't hold, where the
/// format has no pooled list.
pub fn same_run()
    ensures { (g h : Ground) (names : ℕ → Bool) (frozen : Map BoxNode) (run : Run) (r : Result) → HasNoPooled frozen → KnowsRun names run → SameGround (IsHeldBy run) g h → Means g frozen run r → Means h frozen run r }
{}

/// A fact; it does nothing. The map of a scene's session, now and from before the region, is the same with them.
pub fn same_maps()
    ensures now { (g h : Ground) (frozen : Map BoxNode) (s : Scene) → HasNoPooled frozen → SameGround (IsHeldIn s) g h → map_in g.view (now frozen s.environment.table) ≡ map_in h.view (now frozen s.environment.table) }
    ensures before { (g h : Ground) (frozen : Map BoxNode) (s : Scene) → HasNoPooled frozen → SameGround (IsHeldIn s) g h → map_in g.view (before frozen s.environment.table) ≡ map_in h.view (before frozen s.environment.table) }
{}
