//! Groups.

ghost use Rattle.std.specs.Prelude.{◌≡◌, ◌+◌, ℕ, Bool, length, Err, OnOk, OnErr, IfSome, IfNone, ◌↔◌};
ghost use Rattle.tx_node.specs.declared.BoxNode.{BoxNode};
ghost use Rattle.tx_eqtb.specs.Meanings.{Map};
ghost use Rattle.tx_eqtb.specs.Steps.{KeepsBefore};
ghost use Rattle.tx_save.specs.Saves.{groups, Fits};
ghost use Rattle.tx_private.specs.World.{with_environment};
ghost use Rattle.tx_private.specs.Environment.{beginning};
ghost use Rattle.tx_views.specs.Views.{viewed};
ghost use Rattle.tx_input.specs.Worlds.{IsKnown};
ghost use Rattle.tx_environment.specs.Soundness.{IsSound, IsClosing};
ghost use Rattle.tx_environment.specs.Steps.{IsOpen, IsOutermost, innermost, keeping_for_end, Leaves};
ghost use Rattle.tx_scene.specs.Knowledge.{KnowsScene, KnowsClosed, references, ending};
ghost use Rattle.tx_scene.specs.Scenes.{Ground, IsGround, world};
ghost use Rattle.tx_scene.specs.Changes.{Changes, Closes};

use crate::scene::Scene;
use std::alloc::AllocError;
use tx_node::BoxNode;
use tx_save::{Closed, GroupKind, SaveRefused};
use tx_tok::Tok;

impl Scene {
    /// The kind of the innermost open group. None comes exactly where no group is open.
    pub fn group(&self) -> Option<GroupKind>
        ensures kind { (g : Ground) (frozen : Map BoxNode) (depth : ℕ) → result ≡ innermost (world g frozen depth self.now).environment }
        ensures open { IfSome result (λ kind. IsOpen self.now.environment) }
        ensures outermost { IfNone result (IsOutermost self.now.environment) }
    {
        self.environment.group()
    }

    /// How many groups are open: at most 254.
    pub fn groups(&self) -> u8
        ensures count { (g : Ground) (frozen : Map BoxNode) (depth : ℕ) → length (world g frozen depth self.now).environment.groups ≡ result }
        ensures same { length (groups self.now.environment.saves) ≡ result }
    {
        self.environment.groups()
    }

    /// Begins a group. `GroupsFull` comes exactly where 254 groups are open, and the other error is want of memory.
    /// Both change nothing. *TeX: The Program*, section 274.
    pub fn begin_group(&mut self, kind: GroupKind) -> Result<(), SaveRefused>
        ensures begun { OnOk result (Changes (λ g w. with_environment (beginning kind w.environment) w) self.old self.new) }
        ensures becomes { self.new ≡ record self.old { environment = self.new.environment } }
        ensures sound { OnOk result ((frozen : Map BoxNode) → IsSound frozen self.old.environment → IsSound frozen self.new.environment) }
        ensures before { KeepsBefore self.old.environment.table self.new.environment.table }
        ensures full { (result ≡ Err SaveRefused.GroupsFull) ↔ (length (groups self.old.environment.saves) ≡ 254) }
        ensures err { OnErr result (self.new ≡ self.old) }
        ensures knows { (known : ℕ → Bool) → KnowsScene known self.old → KnowsScene known self.new }
        ensures references { (id : ℕ) → references id self.new ≡ references id self.old }
    {
        self.environment.begin(kind)
    }

    /// Adds a token to those that the innermost group leaves for its end. Where no group is open the token is dropped.
    /// The only error is want of memory, which changes nothing. *TeX: The Program*, section 326.
    pub fn after_group(&mut self, token: Tok) -> Result<(), AllocError>
        ensures kept { OnOk result (Changes (λ g w. with_environment (keeping_for_end (viewed g.view token) w.environment) w) self.old self.new) }
        ensures becomes { self.new ≡ record self.old { environment = self.new.environment } }
        ensures sound { (frozen : Map BoxNode) → IsSound frozen self.old.environment → IsSound frozen self.new.environment }
        ensures before { KeepsBefore self.old.environment.table self.new.environment.table }
        ensures err { OnErr result (self.new ≡ self.old) }
        ensures knows { (known : ℕ → Bool) → IsKnown known token → KnowsScene known self.old → KnowsScene known self.new }
        ensures references { (id : ℕ) → references id self.new ≡ references id self.old }
    {
        self.environment.after(token)
    }

    /// Takes one step of the end of the innermost group. `Dropped` hands out a meaning that falls away, if there is one,
    /// and the group goes on ending; `End` hands out the kind of the group that has ended and the tokens that it leaves.
    /// *TeX: The Program*, section 281.
    pub fn close(&mut self) -> Closed<BoxNode>
        requires open { IsOpen self.old.environment }
        requires fits { Fits self.old.environment.table self.old.environment.saves }
        ensures closes { Closes result self.old self.new }
        ensures becomes { self.new ≡ record self.old { environment = self.new.environment } }
        ensures leaves { (frozen : Map BoxNode) → IsClosing frozen self.old.environment → Leaves frozen result self.new.environment }
        ensures before { KeepsBefore self.old.environment.table self.new.environment.table }
        ensures known { (known : ℕ → Bool) → KnowsScene known self.old → KnowsClosed known result }
        ensures knows { (known : ℕ → Bool) → KnowsScene known self.old → KnowsScene known self.new }
        ensures references { (id : ℕ) → references id self.new + ending id result ≡ references id self.old }
    {
        self.environment.close()
    }
}
