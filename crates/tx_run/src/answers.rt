//! Answers to operations.

ghost use Rattle.std.specs.Prelude.{ℕ, Bool, true, ◌+◌, ◌<◌, None, IfSome, IsSome, ◌≡◌, List, Some, IsSomeAnd, option_copied};
ghost use Rattle.tx_environment.specs.Holding.{pooled_in, pooled_of};
ghost use Rattle.tx_input.specs.Worlds.{AllKnown, wanted_text};
ghost use Rattle.tx_run.specs.Knowledge.{counts_as, held_by, KnowsRun};
ghost use Rattle.tx_tok.specs.declared.tok.Tok.{Tok};
ghost use Rattle.tx_tok.specs.declared.tok.ListRef.TheVariants as list;
ghost use Rattle.tx_views.specs.Views.{View, list_in};
ghost use Rattle.tx_views.specs.Meanings.{meaning_in};
ghost use Rattle.tx_input.specs.Takings.{Agrees, limit_in};
ghost use Rattle.tx_scene.specs.Scenes.{Ground, IsGround};
ghost use Rattle.tx_run.specs.declared.op.Op.TheVariants as op;
ghost use Rattle.tx_run.specs.Doings.{stored_meaning as stored_meaning_of};
ghost use Rattle.tx_run.specs.Runs.{asked, asked_by, shared_tokens, Answers, AnswerKeeps, IsForText, IsForList, IsForTake};

use crate::doing::{Doing, Stored};
use crate::run::Run;
use std::mem;
use tx_amounts::letter_of;
use tx_eqtb::Meaning;
use tx_input::Found;
use tx_node::BoxNode;
use tx_tok::{ListRef, Tok, Toks};

impl Run {
    /// The text of the name that was taken, where its number is asked for.
    pub fn name(&self) -> Option<&[u8]>
        ensures { option_copied result ≡ self.now.scene.input.wanted }
    {
        self.scene.input.wanted()
    }

    /// The list that is to be shared, where that is asked for.
    pub fn list(&self) -> Option<&[Tok]>
        ensures { option_copied result ≡ shared_tokens self.now.doing }
    {
        match &self.doing {
            Doing::Shares(_, _, _, tokens) => Some(tokens.as_slice()),
            _ => None,
        }
    }

    /// The answer to `Find`: the number of the name that was taken, or that no name has the text.
    pub fn found(&mut self, number: Option<u64>)
        requires asked { asked self.old ≡ Some op.Find }
        requires wanted { IsSome self.old.scene.input.wanted }
        ensures answers { (g : Ground) → IsGround g self.old.scene → Agrees number g.view self.old.scene.input → Answers g self.old self.new × IsGround g self.new.scene }
        ensures keeps { AnswerKeeps self.old self.new }
        ensures knows { (names : ℕ → Bool) → IfSome number (λ n. names n ≡ true) → KnowsRun names self.old → KnowsRun names self.new }
        ensures holds { (id : ℕ) → held_by id self.new ≡ held_by id self.old }
    {
        self.moves = self.moves.saturating_sub(1);
        if let Doing::Finds(taker) = self.doing {
            match self.scene.input.found(number) {
                Found::Token(token) => self.doing = Doing::Took(taker, token),
                Found::Intern => self.doing = Doing::Interns(taker),
                Found::Full(limit) => self.doing = Doing::Full(limit),
                Found::Memory => self.doing = Doing::NoMemory,
            }
        }
    }

    /// The answer to `Intern`: the number that the name has from now on.
    pub fn interned(&mut self, number: u64)
        requires asked { asked self.old ≡ Some op.Intern }
        requires wanted { IsSome self.old.scene.input.wanted }
        requires room { limit_in self.old.scene.input ≡ None }
        ensures answers { (g : Ground) → IsGround g self.old.scene → g.view.naming number ≡ wanted_text self.old.scene.input → Answers g self.old self.new × IsGround g self.new.scene }
        ensures keeps { AnswerKeeps self.old self.new }
        ensures knows { (names : ℕ → Bool) → names number ≡ true → KnowsRun names self.old → KnowsRun names self.new }
        ensures holds { (id : ℕ) → held_by id self.new ≡ held_by id self.old }
    {
        self.moves = self.moves.saturating_sub(1);
        if let Doing::Interns(taker) = self.doing {
            match self.scene.input.interned(number) {
                Ok(token) => self.doing = Doing::Took(taker, token),
                Err(_) => self.doing = Doing::NoMemory,
            }
        }
    }

    /// The answer to `Text`: the text of the name.
    pub fn text(&mut self, text: &[u8])
        requires asked { IsSomeAnd (asked self.old) IsForText }
        ensures answers { (g : Ground) (number : ℕ) → asked self.old ≡ Some (op.Text number) → IsGround g self.old.scene → g.view.naming number ≡ text.now → Answers g self.old self.new × IsGround g self.new.scene }
        ensures keeps { AnswerKeeps self.old self.new }
        ensures knows { (names : ℕ → Bool) → KnowsRun names self.old → KnowsRun names self.new }
        ensures holds { (id : ℕ) → held_by id self.new ≡ held_by id self.old }
    {
        self.moves = self.moves.saturating_sub(1);
        match mem::replace(&mut self.doing, Doing::NoMemory) {
            Doing::Letter(number) => {
                let token = Tok::Name(number);
                self.doing = Doing::Lettered(token, letter_of(token, text));
            }
            Doing::Prints(begun, description) => {
                let mut description = description;
                match description.text(self.scene.environment.cats(), text) {
                    Ok(()) => self.doing = Doing::Prints(begun, description),
                    Err(_) => self.doing = Doing::NoMemory,
                }
            }
            Doing::Tells(told, description) => {
                let mut description = description;
                match description.text(self.scene.environment.cats(), text) {
                    Ok(()) => self.doing = Doing::Tells(told, description),
                    Err(_) => self.doing = Doing::NoMemory,
                }
            }
            doing => self.doing = doing,
        }
    }

    /// The answer to `Read`: the content of the list.
    pub fn read(&mut self, tokens: Toks)
        requires asked { IsSomeAnd (asked self.old) IsForList }
        ensures answers { (g : Ground) (id : ℕ) → asked self.old ≡ Some (op.Read id) → IsGround g self.old.scene → g.view.content (list.Pooled id) ≡ tokens → Answers g self.old self.new × IsGround g self.new.scene }
        ensures keeps { AnswerKeeps self.old self.new }
        ensures knows { (names : ℕ → Bool) → AllKnown names tokens → KnowsRun names self.old → KnowsRun names self.new }
        ensures holds { (id : ℕ) → held_by id self.new ≡ held_by id self.old }
    {
        self.moves = self.moves.saturating_sub(1);
        match mem::replace(&mut self.doing, Doing::NoMemory) {
            Doing::Reads(begun, how, _) => self.doing = Doing::Copies(begun, how, tokens),
            Doing::Prints(begun, description) => {
                let mut description = description;
                description.content(tokens);
                self.doing = Doing::Prints(begun, description);
            }
            Doing::Tells(told, description) => {
                let mut description = description;
                description.content(tokens);
                self.doing = Doing::Tells(told, description);
            }
            doing => self.doing = doing,
        }
    }

    /// The answer to `Share`: a reference to the list, which the session holds from now on.
    pub fn shared(&mut self, list: ListRef)
        requires asked { asked self.old ≡ Some op.Share }
        ensures answers { (g : Ground) (tokens : List Tok) → shared_tokens self.old.doing ≡ Some tokens → IsGround g self.old.scene → g.view.content list ≡ tokens → Answers g self.old self.new × IsGround g self.new.scene }
        ensures keeps { AnswerKeeps self.old self.new }
        ensures knows { (names : ℕ → Bool) → KnowsRun names self.old → KnowsRun names self.new }
        ensures holds { (id : ℕ) → held_by id self.new ≡ held_by id self.old + counts_as id (pooled_in list) }
    {
        self.moves = self.moves.saturating_sub(1);
        match mem::replace(&mut self.doing, Doing::NoMemory) {
            Doing::Shares(prefixes, place, stored, _tokens) => {
                self.doing = Doing::Assigns(prefixes, place, stored_meaning(stored, list));
            }
            doing => self.doing = doing,
        }
    }

    /// The answer to `Take`: the session holds the list once more.
    pub fn took_list(&mut self)
        requires asked { IsSomeAnd (asked self.old) IsForTake }
        ensures answers { (g : Ground) → IsGround g self.old.scene → Answers g self.old self.new × IsGround g self.new.scene }
        ensures keeps { AnswerKeeps self.old self.new }
        ensures knows { (names : ℕ → Bool) → KnowsRun names self.old → KnowsRun names self.new }
        ensures holds { (names : ℕ → Bool) → KnowsRun names self.old → (number : ℕ) → asked self.old ≡ Some (op.Take number) → (id : ℕ) → held_by id self.new ≡ held_by id self.old + counts_as id (Some number) }
    {
        self.moves = self.moves.saturating_sub(1);
        match mem::replace(&mut self.doing, Doing::NoMemory) {
            Doing::Takes(prefixes, place, meaning, _) => {
                self.doing = Doing::Assigns(prefixes, place, meaning);
            }
            doing => self.doing = doing,
        }
    }

    /// The answer to `Release`: the session holds the list once less.
    pub fn released(&mut self)
        ensures answers { (g : Ground) → IsGround g self.old.scene → Answers g self.old self.new × IsGround g self.new.scene }
        ensures fallen { self.new.fallen ≡ None }
        ensures keeps { AnswerKeeps self.old self.new }
        ensures knows { (names : ℕ → Bool) → KnowsRun names self.old → KnowsRun names self.new }
        ensures holds { (id : ℕ) → held_by id self.new + counts_as id self.old.fallen ≡ held_by id self.old }
    {
        self.moves = self.moves.saturating_sub(1);
        self.fallen = None;
    }

    /// The answer to any operation for which memory was wanting.
    pub fn no_memory(&mut self)
        ensures answers { (g : Ground) → IsGround g self.old.scene → Answers g self.old self.new × IsGround g self.new.scene }
        ensures fallen { self.new.fallen ≡ self.old.fallen }
        ensures scene { self.new.scene ≡ self.old.scene }
        ensures keeps { AnswerKeeps self.old self.new }
        ensures knows { (names : ℕ → Bool) → KnowsRun names self.old → KnowsRun names self.new }
        ensures holds { IsSome (asked_by self.old.doing) → (id : ℕ) → held_by id self.new ≡ held_by id self.old }
    {
        self.moves = self.moves.saturating_sub(1);
        self.doing = Doing::NoMemory;
    }
}

/// A list as a meaning.
fn stored_meaning(stored: Stored, list: ListRef) -> Meaning<BoxNode>
    ensures means { (view : View) → meaning_in view result ≡ stored_meaning_of stored (list_in view list) }
    ensures pooled { pooled_of result ≡ pooled_in list }
{
    match stored {
        Stored::List => Meaning::List(list),
        Stored::Macro(long, protected) => Meaning::Macro(long, protected, list),
    }
}
