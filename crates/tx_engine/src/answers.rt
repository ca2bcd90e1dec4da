//! Answers to operations.

ghost use Rattle.std.specs.Prelude.{◌≡◌, ℕ, ◌<◌, ◌^◌, ◌-◌, List, Some, IsSomeAnd};
ghost use Rattle.tx_tok.specs.declared.tok.Tok.{Tok};
ghost use Rattle.tx_node.specs.declared.BoxNode.{BoxNode};
ghost use Rattle.tx_eqtb.specs.Meanings.{Map};
ghost use Rattle.tx_environment.specs.Holding.{pooled_in};
ghost use Rattle.tx_input.specs.Worlds.{wanted_text};
ghost use Rattle.tx_store.specs.Steps.{Same, AfterFind, AfterIntern, AfterShare, AfterTake, AfterRelease, content_of};
ghost use Rattle.tx_run.specs.declared.op.Op.{Op};
ghost use Rattle.tx_run.specs.declared.op.Op.TheVariants as op;
ghost use Rattle.tx_run.specs.Runs.{shared_tokens, IsForText, IsForList, IsForTake};
ghost use Rattle.tx_engine.specs.Standing.{IsReady};
ghost use Rattle.tx_engine.specs.Steps.{due, number_in, Carries, IsAnswered, IsForRelease, IsRefusable};

use crate::engine::{Engine, Phase};
use tx_contents::{same_maps, same_run};
use tx_tok::{ListRef, Toks};

impl Engine {
    /// The answer to `Find`: the number of the name that was taken, or that no name has the text.
    pub fn found(&mut self, number: Option<u64>)
        requires phase { self.old.phase ≡ Phase.Runs }
        requires ready { (frozen : Map BoxNode) × IsReady frozen self.old }
        requires due { due self.old ≡ Some op.Find }
        ensures carries { Carries (λ before after. AfterFind before (wanted_text self.old.run.scene.input) number after) self.old self.new }
        ensures answered { IsAnswered self.old self.new }
    {
        self.run.knows_more();
        self.run.found(number);
    }

    /// The answer to `Intern`: the number that the name has from now on.
    pub fn interned(&mut self, number: u64)
        requires phase { self.old.phase ≡ Phase.Runs }
        requires ready { (frozen : Map BoxNode) × IsReady frozen self.old }
        requires due { due self.old ≡ Some op.Intern }
        ensures carries { Carries (λ before after. AfterIntern before (wanted_text self.old.run.scene.input) number after) self.old self.new }
        ensures answered { IsAnswered self.old self.new }
    {
        self.run.knows_more();
        self.run.interned(number);
    }

    /// The answer to `Text`: the text of the name.
    pub fn text(&mut self, text: &[u8])
        requires phase { self.old.phase ≡ Phase.Runs }
        requires due { IsSomeAnd (due self.old) IsForText }
        ensures carries { Carries (λ before after. Same before after × ((n : ℕ) → due self.old ≡ Some (op.Text n) → before.names n ≡ Some text.now)) self.old self.new }
        ensures answered { IsAnswered self.old self.new }
    {
        self.run.knows_more();
        self.run.text(text);
    }

    /// The answer to `Read`: the content of the list.
    pub fn read(&mut self, tokens: Toks)
        requires phase { self.old.phase ≡ Phase.Runs }
        requires due { IsSomeAnd (due self.old) IsForList }
        ensures carries { Carries (λ before after. Same before after × ((id : ℕ) → due self.old ≡ Some (op.Read id) → content_of (before.row id) ≡ tokens)) self.old self.new }
        ensures answered { IsAnswered self.old self.new }
    {
        self.run.knows_more();
        self.run.knows_asked();
        self.run.read(tokens);
    }

    /// The answer to `Share`: a reference to the list, which the session holds from now on.
    pub fn shared(&mut self, list: ListRef)
        requires phase { self.old.phase ≡ Phase.Runs }
        requires due { due self.old ≡ Some op.Share }
        requires room { self.old.references < 2 ^ 28 - 1 }
        ensures carries { Carries (λ before after. (tokens : List Tok) × (shared_tokens self.old.run.doing ≡ Some tokens) × AfterShare before tokens list after) self.old self.new }
        ensures answered { IsAnswered self.old self.new }
    {
        self.run.knows_more();
        self.references += references(list);
        self.run.shared(list);
    }

    /// The answer to `Take`: the session holds the list once more.
    pub fn took_list(&mut self)
        requires phase { self.old.phase ≡ Phase.Runs }
        requires due { IsSomeAnd (due self.old) IsForTake }
        requires room { self.old.references < 2 ^ 28 - 1 }
        ensures carries { Carries (λ before after. (id : ℕ) × (due self.old ≡ Some (op.Take id)) × AfterTake before id after) self.old self.new }
        ensures answered { IsAnswered self.old self.new }
    {
        self.run.knows_more();
        self.references += 1;
        self.run.took_list();
    }

    /// The answer to `Release`: the session holds the list once less.
    pub fn released(&mut self)
        requires phase { self.old.phase ≡ Phase.Runs }
        requires due { IsSomeAnd (due self.old) IsForRelease }
        ensures carries { Carries (λ before after. (id : ℕ) × (due self.old ≡ Some (op.Release id)) × AfterRelease before id after) self.old self.new }
        ensures answered { IsAnswered self.old self.new }
    {
        self.run.knows_more();
        same_run();
        same_maps();
        self.references = self.references.saturating_sub(1);
        self.run.released();
    }

    /// The answer to any operation but a release, for which memory was wanting.
    pub fn no_memory(&mut self)
        requires phase { self.old.phase ≡ Phase.Runs }
        requires due { (o : Op) × (due self.old ≡ Some o) × IsRefusable o }
        ensures carries { Carries Same self.old self.new }
        ensures answered { IsAnswered self.old self.new }
    {
        self.run.knows_more();
        self.run.no_memory();
    }
}

/// How many references a reference to a list counts as: only one to a list of the pool is counted.
fn references(list: ListRef) -> u32
    ensures { result ≡ number_in (pooled_in list) }
{
    match list {
        ListRef::Pooled(_) => 1,
        ListRef::Empty | ListRef::Frozen(_) => 0,
    }
}
