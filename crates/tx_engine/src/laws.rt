//! A fact on what is asked for, for callers.

ghost use Rattle.std.specs.Prelude.{◌≡◌, Some, IsSome};
ghost use Rattle.tx_node.specs.declared.BoxNode.{BoxNode};
ghost use Rattle.tx_eqtb.specs.Meanings.{Map};
ghost use Rattle.tx_run.specs.declared.op.Op.TheVariants as op;
ghost use Rattle.tx_run.specs.Runs.{shared_tokens};
ghost use Rattle.tx_engine.specs.Standing.{IsReady};
ghost use Rattle.tx_engine.specs.Steps.{due};

use crate::engine::{Engine, Phase};

impl Engine {
    /// A fact for callers; it does nothing. Where the number of a name is asked for, its text is there, and where a list
    /// is to be shared, the list is.
    pub fn has_what_is_due(&self)
        ensures found { (frozen : Map BoxNode) → self.now.phase ≡ Phase.Runs → IsReady frozen self.now → due self.now ≡ Some op.Find → IsSome self.now.run.scene.input.wanted }
        ensures interned { (frozen : Map BoxNode) → self.now.phase ≡ Phase.Runs → IsReady frozen self.now → due self.now ≡ Some op.Intern → IsSome self.now.run.scene.input.wanted }
        ensures shared { due self.now ≡ Some op.Share → IsSome (shared_tokens self.now.run.doing) }
    {}
}
