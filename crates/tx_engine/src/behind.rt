//! What comes behind a region: what it set is kept or given back. No step of it takes memory.

ghost use Rattle.std.specs.Prelude.{◌≡◌, ℕ, ◌-◌};
ghost use Rattle.tx_node.specs.declared.BoxNode.{BoxNode};
ghost use Rattle.tx_eqtb.specs.Meanings.{Map};
ghost use Rattle.tx_scene.specs.Knowledge.{ending};
ghost use Rattle.tx_run.specs.Knowledge.{counts_as};
ghost use Rattle.tx_engine.specs.Standing.{IsReady};
ghost use Rattle.tx_engine.specs.Steps.{Backs, IsEnding, IsLessLeft, number_in, releasing, phase_behind};

use crate::engine::{Engine, Phase};
use crate::step::{Back, End};
use tx_contents::same_maps;
use tx_node::BoxNode;
use tx_run::pooled;
use tx_save::Closed;

impl Engine {
    /// Takes one step of what comes behind a region. What it set is kept where it ended with DONE, and is given back
    /// else; each list that falls away is handed out, to be released before the next call. *TeX: The Program*, part 19.
    pub fn back(&mut self) -> Back
        requires phase { IsEnding self.old.phase }
        requires ready { (frozen : Map BoxNode) × IsReady frozen self.old }
        ensures backs { Backs result self.old self.new }
        ensures ready { (frozen : Map BoxNode) → IsReady frozen self.old → IsReady frozen self.new }
        ensures fewer { IsLessLeft result self.old self.new }
        ensures preamble { self.new.preamble ≡ self.old.preamble }
    {
        match self.phase {
            Phase::Drops(ended) => self.drops(ended),
            Phase::Keeps => self.keeps(),
            Phase::Undoes(ended) => self.undoes(ended),
            Phase::Abandons(ended) => self.abandons(ended),
            Phase::Idle | Phase::Runs => Back::Rests(End::Done),
        }
    }

    /// What was in hand for the region falls away.
    fn drops(&mut self, ended: End) -> Back
        requires phase { self.old.phase ≡ Phase.Drops ended }
        ensures backs { Backs result self.old self.new }
        ensures ready { (frozen : Map BoxNode) → IsReady frozen self.old → IsReady frozen self.new }
        ensures fewer { IsLessLeft result self.old self.new }
        ensures preamble { self.new.preamble ≡ self.old.preamble }
    {
        same_maps();
        match self.run.falls() {
            Some(id) => self.releases(Some(id)),
            None => {
                self.phase = behind(ended);
                Back::Went
            }
        }
    }

    /// What the region set is kept.
    fn keeps(&mut self) -> Back
        requires phase { self.old.phase ≡ Phase.Keeps }
        requires ready { (frozen : Map BoxNode) × IsReady frozen self.old }
        ensures backs { Backs result self.old self.new }
        ensures ready { (frozen : Map BoxNode) → IsReady frozen self.old → IsReady frozen self.new }
        ensures fewer { IsLessLeft result self.old self.new }
        ensures preamble { self.new.preamble ≡ self.old.preamble }
    {
        same_maps();
        match self.run.scene.environment.keep() {
            Some(meaning) => self.releases(pooled(&meaning)),
            None => self.rests(End::Done),
        }
    }

    /// What the region set is undone.
    fn undoes(&mut self, ended: End) -> Back
        requires phase { self.old.phase ≡ Phase.Undoes ended }
        requires ready { (frozen : Map BoxNode) × IsReady frozen self.old }
        ensures backs { Backs result self.old self.new }
        ensures ready { (frozen : Map BoxNode) → IsReady frozen self.old → IsReady frozen self.new }
        ensures fewer { IsLessLeft result self.old self.new }
        ensures preamble { self.new.preamble ≡ self.old.preamble }
    {
        same_maps();
        match self.run.scene.environment.undo() {
            Some(meaning) => self.releases(pooled(&meaning)),
            None => {
                self.phase = Phase::Abandons(ended);
                Back::Went
            }
        }
    }

    /// The groups that it left open are given up, and at last the state is the one from before it.
    fn abandons(&mut self, ended: End) -> Back
        requires phase { self.old.phase ≡ Phase.Abandons ended }
        requires ready { (frozen : Map BoxNode) × IsReady frozen self.old }
        ensures backs { Backs result self.old self.new }
        ensures ready { (frozen : Map BoxNode) → IsReady frozen self.old → IsReady frozen self.new }
        ensures fewer { IsLessLeft result self.old self.new }
        ensures preamble { self.new.preamble ≡ self.old.preamble }
    {
        same_maps();
        match self.run.scene.environment.abandon() {
            Some(step) => self.releases(fallen(&step)),
            None => {
                self.run.scene.environment.given_back();
                self.run.scene.input.give_back(self.names);
                self.rests(ended)
            }
        }
    }

    /// A list falls away, if there is one.
    fn releases(&mut self, fallen: Option<u64>) -> Back
        ensures becomes { self.new ≡ record self.old { references = self.new.references } }
        ensures references { self.new.references ≡ self.old.references - number_in fallen }
        ensures result { result ≡ releasing fallen }
    {
        match fallen {
            Some(id) => {
                self.references = self.references.saturating_sub(1);
                Back::Releases(id)
            }
            None => Back::Went,
        }
    }

    /// No region runs any more.
    fn rests(&mut self, ended: End) -> Back
        ensures becomes { self.new ≡ record self.old { phase = Phase.Idle } }
        ensures result { result ≡ Back.Rests ended }
    {
        self.phase = Phase::Idle;
        Back::Rests(ended)
    }
}

/// The list that falls away with what a step of the giving up of groups hands out, if there is one.
fn fallen(step: &Closed<BoxNode>) -> Option<u64>
    ensures { (id : ℕ) → counts_as id result ≡ ending id step.now }
{
    match step {
        Closed::Dropped(Some(meaning)) => pooled(meaning),
        Closed::Dropped(None) | Closed::End(_, _) => None,
    }
}

/// What comes behind a region that ended so, once nothing is in hand for it.
fn behind(ended: End) -> Phase
    ensures { result ≡ phase_behind ended }
{
    match ended {
        End::Done => Phase::Keeps,
        End::Failed | End::Spent | End::Memory => Phase::Undoes(ended),
    }
}
