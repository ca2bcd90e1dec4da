//! What names mean now, and what they mean again at the ends of the open groups and of a region that is
//! given back.

ghost use Rattle.std.specs.Prelude.{◌≡◌, ◌<◌, ◌∷◌, [], length, nat_eq, IfOk, OnOk, OnErr, IsSome};
ghost use Rattle.std.specs.Map.{lookup};
ghost use Rattle.tx_model.specs.Region.{outermost};
ghost use Rattle.tx_model.specs.Environment.{Map, defining, beginning_group, ending_group, open_groups as open_groups_of, meaning_of as meaning_of_token};
ghost use Rattle.tx_tok.specs.Tokens.{token_in};
ghost use Rattle.tx_names.specs.Names.{Names, Naming, KeepsApart};
ghost use Rattle.tx_gullet.specs.Meanings.{meaning_in, KnowsMeaning, IsSameMeaning};
ghost use Rattle.tx_gullet.specs.Levels.{levels, map_of, if_ended, with_cell, before_of, meaning_by, before, HasCells, KeepsBefore, KnowsEquivalents};

use crate::meaning::Meaning;
use indexmap::IndexMap;
use std::alloc::{AllocError, Global};
use std::rc::Rc;
use tx_scan::Cats;
use tx_tok::Tok;

/// What is kept for the end of a group, or for the end of the region. *TeX: The Program*, part 19.
#[derive(Drop)]
pub(crate) enum Save {
    /// The group's beginning.
    Group,
    /// What a name meant before a definition.
    Name(u64, Meaning),
}

/// The present meanings, and what was saved since a region began, the latest last.
#[derive(Drop)]
pub(crate) struct Equivalents {
    pub(crate) cats: Cats,
    names: IndexMap<u64, Meaning>,
    saves: Vec<Save>,
}

impl Equivalents {
    /// No name has a meaning, and no group is open.
    pub(crate) fn new(alloc: Global, cats: Cats) -> Self
        ensures cats { result.cats ≡ cats }
        ensures names { result.names.entries ≡ [] }
        ensures saves { result.saves.items ≡ [] }
    {
        Equivalents {
            cats,
            names: IndexMap::new(alloc),
            saves: Vec::new(alloc),
        }
    }

    /// The present meanings once more, with nothing saved. The only error is want of memory.
    pub(crate) fn unsaved(&self) -> Result<Self, AllocError>
        ensures map { IfOk result (λ copy. (naming : Naming) → map_of naming copy.cats copy.names.entries ≡ map_of naming self.now.cats self.now.names.entries) }
        ensures knows { IfOk result (λ copy. (names : Names) → KnowsEquivalents names self.now → KnowsEquivalents names copy) }
        ensures saves { IfOk result (λ copy. copy.saves.items ≡ []) }
    {
        let alloc = *self.names.allocator();
        let names = self.names.clone()?;
        Ok(Equivalents {
            cats: self.cats,
            names,
            saves: Vec::new(alloc),
        })
    }

    /// The present meaning of a token. The only error is want of memory.
    pub(crate) fn meaning_of(&self, token: Tok) -> Result<Meaning, AllocError>
        ensures meaning { IfOk result (λ m. (naming : Naming) → KeepsApart naming → meaning_in naming m ≡ meaning_of_token (levels naming self.now) (token_in naming token)) }
        ensures knows { IfOk result (λ m. (names : Names) → KnowsEquivalents names self.now → KnowsMeaning names m) }
    {
        match token {
            Tok::Char(cat, byte) => Ok(Meaning::Character(cat, byte)),
            Tok::Name(number) => self.meaning_of_name(number),
            Tok::Active(_) | Tok::Param(_) | Tok::Stop => Ok(Meaning::Undefined),
        }
    }

    /// The present meaning of a name.
    fn meaning_of_name(&self, number: u64) -> Result<Meaning, AllocError>
        ensures meaning { IfOk result (λ m. (naming : Naming) → KeepsApart naming → meaning_in naming m ≡ meaning_of_token (levels naming self.now) (token_in naming (Tok.Name number))) }
        ensures knows { IfOk result (λ m. (names : Names) → KnowsEquivalents names self.now → KnowsMeaning names m) }
    {
        match self.names.get(&number) {
            Some(meaning) => Ok(meaning.clone()?),
            None => Ok(Meaning::Undefined),
        }
    }

    /// Gives a name a meaning up to the end of the innermost group. The only error is want of memory, which
    /// changes nothing. *TeX: The Program*, part 19.
    pub(crate) fn define(&mut self, number: u64, meaning: Meaning) -> Result<(), AllocError>
        ensures levels { OnOk result ((naming : Naming) → KeepsApart naming → levels naming self.new ≡ defining (naming number) (meaning_in naming meaning) (levels naming self.old)) }
        ensures knows { OnOk result ((names : Names) → KnowsEquivalents names self.old → KnowsMeaning names meaning → KnowsEquivalents names self.new) }
        ensures kept { KeepsBefore self.old self.new }
    {
        self.saves.reserve(1)?;
        let before = self.write(number, meaning)?;
        self.saves.push(Save::Name(number, before))?;
        Ok(())
    }

    /// Begins a group. The only error is want of memory, which changes nothing.
    pub(crate) fn begin_group(&mut self) -> Result<(), AllocError>
        ensures levels { OnOk result ((naming : Naming) → levels naming self.new ≡ beginning_group (levels naming self.old)) }
        ensures knows { OnOk result ((names : Names) → KnowsEquivalents names self.old → KnowsEquivalents names self.new) }
        ensures kept { KeepsBefore self.old self.new }
    {
        self.saves.push(Save::Group)?;
        Ok(())
    }

    /// Ends the innermost group, and tells whether one was open. Where none was, all that was saved is given
    /// back. It takes no memory.
    pub(crate) fn end_group(&mut self) -> bool
        requires cells { HasCells self.old }
        ensures ended { (naming : Naming) → KeepsApart naming → ending_group (levels naming self.old) ≡ if_ended result (levels naming self.new) }
        ensures knows { (names : Names) → KnowsEquivalents names self.old → KnowsEquivalents names self.new }
        ensures kept { KeepsBefore self.old self.new }
        ensures fewer { 0 < length self.old.saves.items → length self.new.saves.items < length self.old.saves.items }
    {
        'saves: while let Some(save) = self.saves.pop() {
            match save {
                Save::Group => return true,
                Save::Name(number, meaning) => self.restore(number, meaning),
            }
        }
        false
    }

    /// Ends all open groups, and forgets what was saved: the outermost level stays. It takes no memory.
    pub(crate) fn keep(&mut self)
        requires cells { HasCells self.old }
        ensures levels { (naming : Naming) → KeepsApart naming → (map : Map) → levels naming self.new ≡ outermost map (levels naming self.old) ∷ [] }
        ensures knows { (names : Names) → KnowsEquivalents names self.old → KnowsEquivalents names self.new }
        ensures saves { self.new.saves.items ≡ [] }
    {
        'groups: while self.open_groups() > 0 {
            let _ended = self.end_group();
        }
        self.saves.clear();
    }

    /// Gives back all that was saved. It takes no memory.
    pub(crate) fn undo(&mut self)
        requires cells { HasCells self.old }
        ensures before { meaning_by self.new.names.entries ≡ before self.old }
        ensures saves { self.new.saves.items ≡ [] }
        ensures cats { self.new.cats ≡ self.old.cats }
    {
        'saves: while let Some(save) = self.saves.pop() {
            match save {
                Save::Group => {}
                Save::Name(number, before) => self.restore(number, before),
            }
        }
    }

    /// Writes the cell of a name, and hands out the meaning that it had. The only error is want of memory,
    /// which changes nothing.
    fn write(&mut self, number: u64, meaning: Meaning) -> Result<Meaning, AllocError>
        ensures names { OnOk result (self.new.names.entries ≡ with_cell self.old.names.entries number meaning) }
        ensures before { IfOk result (λ before. before ≡ before_of (lookup (nat_eq number) self.old.names.entries)) }
        ensures err { OnErr result (self.new.names.entries ≡ self.old.names.entries) }
        ensures saves { self.new.saves ≡ self.old.saves }
        ensures cats { self.new.cats ≡ self.old.cats }
    {
        match self.names.insert(number, meaning)? {
            Some(before) => Ok(before),
            None => Ok(Meaning::Undefined),
        }
    }

    /// Gives a name with a cell a meaning again that was saved. It takes no memory.
    fn restore(&mut self, number: u64, meaning: Meaning)
        requires cell { IsSome (lookup (nat_eq number) self.old.names.entries) }
        ensures names { self.new.names.entries ≡ with_cell self.old.names.entries number meaning }
        ensures saves { self.new.saves ≡ self.old.saves }
        ensures cats { self.new.cats ≡ self.old.cats }
    {
        match self.names.insert(number, meaning) {
            Ok(_inner) => {}
            // A key that is there needs no room.
            Err(_full) => {}
        }
    }

    /// The number of open groups.
    pub(crate) fn open_groups(&self) -> usize
        ensures { (naming : Naming) → result ≡ open_groups_of (levels naming self.now) }
    {
        let mut groups = 0;
        for save in self.saves.as_slice() {
            match save {
                Save::Group => groups += 1,
                Save::Name(_, _) => {}
            }
        }
        groups
    }
}

impl Clone for Meaning {
    // A clone is another one of the same meaning.
    ghost is_clone = { IsSameMeaning };

    /// The same meaning once more. The only error is want of memory.
    fn clone(&self) -> Result<Self, AllocError> {
        match self {
            Meaning::Undefined => Ok(Meaning::Undefined),
            Meaning::Primitive(primitive) => Ok(Meaning::Primitive(*primitive)),
            Meaning::Macro(list) => Ok(Meaning::Macro(list.clone()?)),
            Meaning::Character(cat, byte) => Ok(Meaning::Character(*cat, *byte)),
        }
    }
}
