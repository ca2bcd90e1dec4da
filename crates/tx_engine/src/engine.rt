//! The engine.

ghost use Rattle.std.specs.List.{list_any};
ghost use Rattle.std.specs.Str.{bytes_eq};
ghost use Rattle.std.specs.Prelude.{◌≡◌, ℕ, Bool, List, length, None, [], true, false, option_copied};
ghost use Rattle.tx_node.specs.declared.BoxNode.{BoxNode};
ghost use Rattle.tx_eqtb.specs.Meanings.{Map, meanings};
ghost use Rattle.tx_private.specs.Region.{State};
ghost use Rattle.tx_views.specs.Views.{IsView};
ghost use Rattle.tx_views.specs.Meanings.{map_in};
ghost use Rattle.tx_input.specs.Worlds.{IsOfFormat};
ghost use Rattle.tx_scene.specs.Scenes.{Ground, state_in};
ghost use Rattle.tx_run.specs.Runs.{shared_tokens};
ghost use Rattle.tx_run.specs.Knowledge.{KnowsFormat};
ghost use Rattle.tx_store.specs.Sessions.{Session, IsNew};
ghost use Rattle.tx_engine.specs.Agreement.{known_names};
ghost use Rattle.tx_engine.specs.Standing.{IsReady, Serves, Rests, Stands};

use crate::step::End;
use std::alloc::Global;
use tx_bytes::Bytes;
use tx_format::Format;
use tx_run::Run;
use tx_scene::Scene;
use tx_tok::Tok;

/// What an engine is in the middle of.
#[derive(Clone, Copy, Debug, PartialEq, Eq)]
pub enum Phase {
    /// No region runs.
    Idle,
    /// A region runs.
    Runs,
    /// A region has ended so, and what was in hand for it falls away.
    Drops(End),
    /// What the region set is kept.
    Keeps,
    /// What the region set is undone.
    Undoes(End),
    /// The groups that it left open are given up.
    Abandons(End),
}

/// All that a session has over a format: what everything means, its own names, and the region that runs.
#[derive(Drop)]
pub struct Engine {
    pub(crate) run: Run,
    pub(crate) phase: Phase,
    /// How many names of its own the session had before the region.
    pub(crate) names: usize,
    /// How many references to lists the session holds.
    pub(crate) references: u32,
    /// Whether its regions are preambles.
    preamble: bool,
}

impl Engine {
    /// An engine at the beginning of a session.
    pub fn new(alloc: Global, format: &Format) -> Self
        ensures state { (g : Ground) → IsView g.view → IsOfFormat g.formats g.view (length format.now.names) → state_in g (meanings format.now.frozen) result.run.scene ≡ record { map = map_in g.view (meanings format.now.frozen); frozen = λ text. list_any (bytes_eq text) g.formats; names = [] } }
        ensures ready { IsReady (meanings format.now.frozen) result }
        ensures serves { (session : Session) → IsNew format.now session → KnowsFormat (known_names session) format.now → Serves session result }
        ensures phase { result.phase ≡ Phase.Idle }
        ensures preamble { result.preamble ≡ false }
    {
        Engine::made(alloc, format, false)
    }

    /// An engine for a preamble, which has limits of its own and may end by `\dump`.
    pub fn for_preamble(alloc: Global, format: &Format) -> Self
        ensures state { (g : Ground) → IsView g.view → IsOfFormat g.formats g.view (length format.now.names) → state_in g (meanings format.now.frozen) result.run.scene ≡ record { map = map_in g.view (meanings format.now.frozen); frozen = λ text. list_any (bytes_eq text) g.formats; names = [] } }
        ensures ready { IsReady (meanings format.now.frozen) result }
        ensures serves { (session : Session) → IsNew format.now session → KnowsFormat (known_names session) format.now → Serves session result }
        ensures phase { result.phase ≡ Phase.Idle }
        ensures preamble { result.preamble ≡ true }
    {
        Engine::made(alloc, format, true)
    }

    /// An engine at its beginning.
    fn made(alloc: Global, format: &Format, preamble: bool) -> Self
        ensures state { (g : Ground) → IsView g.view → IsOfFormat g.formats g.view (length format.now.names) → state_in g (meanings format.now.frozen) result.run.scene ≡ record { map = map_in g.view (meanings format.now.frozen); frozen = λ text. list_any (bytes_eq text) g.formats; names = [] } }
        ensures ready { IsReady (meanings format.now.frozen) result }
        ensures serves { (session : Session) → IsNew format.now session → KnowsFormat (known_names session) format.now → Serves session result }
        ensures phase { result.phase ≡ Phase.Idle }
        ensures preamble { result.preamble ≡ preamble }
    {
        let scene = Scene::new(alloc, format.frozen(), format.names_len(), preamble);
        Engine {
            run: Run::new(scene),
            phase: Phase::Idle,
            names: 0,
            references: 0,
            preamble,
        }
    }

    /// Begins a region of this text with this budget of steps, where none runs. *TeX: The Program*, part 46.
    pub fn begin(&mut self, text: Bytes, budget: u32)
        requires phase { self.old.phase ≡ Phase.Idle }
        requires ready { (frozen : Map BoxNode) × IsReady frozen self.old }
        ensures ready { (frozen : Map BoxNode) → IsReady frozen self.old → IsReady frozen self.new }
        ensures serves { (session : Session) → Serves session self.old → Serves session self.new }
        ensures stands { (session : Session) (s : State) → Serves session self.old → Rests session self.old s → Stands session self.new s self.old.preamble text budget }
        ensures phase { self.new.phase ≡ Phase.Runs }
        ensures preamble { self.new.preamble ≡ self.old.preamble }
    {
        self.names = self.run.scene.input.names();
        self.run.scene.preamble = self.preamble;
        self.run.begin(text, budget);
        self.phase = Phase::Runs;
    }

    /// The text of the name that was taken, where its number is asked for.
    pub fn name(&self) -> Option<&[u8]>
        ensures { option_copied result ≡ self.now.run.scene.input.wanted }
    {
        self.run.name()
    }

    /// The list that is to be shared, where that is asked for.
    pub fn list(&self) -> Option<&[Tok]>
        ensures { option_copied result ≡ shared_tokens self.now.run.doing }
    {
        self.run.list()
    }

    /// The allocator of the session.
    pub fn alloc(&self) -> Global
        ensures { result ≡ self.now.run.scene.alloc }
    {
        self.run.scene.alloc
    }

    /// The steps that the region has spent.
    pub fn steps(&self) -> u32
        ensures { result ≡ self.now.run.scene.input.steps.spent }
    {
        self.run.scene.input.steps()
    }

    /// The log of the region.
    pub fn log(&self) -> &[u8]
        ensures { result.now ≡ self.now.run.scene.log }
    {
        self.run.scene.log.as_slice()
    }
}
