//! The save stack.

ghost use Rattle.std.specs.Prelude.{◌≡◌, ◌≢◌, ◌+◌, ◌<◌, ◌∷◌, ◌++◌, [], ◌↔◌, false, true, if◌then◌else◌, map, reverse, Err, IfOk, IfErr, IfNone, IfSome, OnOk, OnErr, length, vec_capacity, IsTrue, ⊤};
ghost use Rattle.std.specs.List.{slice_get};
ghost use Rattle.std.specs.Option.{option_map, option_to_list};
ghost use Rattle.tx_eqtb.specs.Addresses.{update};
ghost use Rattle.tx_eqtb.specs.Meanings.{Map};
ghost use Rattle.tx_eqtb.specs.Tables.{Table, noted, now, before, held, SameCounts};
ghost use Rattle.tx_eqtb.specs.Steps.{Sets, KeepsBefore, moved};
ghost use Rattle.tx_save.specs.Levels.{level_at};
ghost use Rattle.tx_save.specs.Saves.{below, outside, groups, saved, all_held, outermost, Fits, ChangesOutside, CanUnsave, Unsaves, Closes, dropped, Abandons, abandoned};

use crate::group::{Closed, Group, GroupKind, SaveRefused};
use crate::levels::{give_level_back, level_of, lower_level, write_level};
use crate::save::Save;
use indexmap::IndexMap;
use std::alloc::{AllocError, Global};
use std::marker::Model;
use std::mem;
use tx_eqtb::{Addr, Meaning, Old, Overlay};
use tx_tok::{Tok, Toks};

/// The level that has no room for a group within it.
const LAST_LEVEL: u8 = 255;

/// The groups that are open, with what local assignments replaced. *TeX: The Program*, part 19.
#[derive(Drop)]
pub struct SaveStack<B> {
    saves: Vec<Save<B>>,
    levels: IndexMap<Addr, u8>,
    group: Group,
    level: u8,
}

impl<B> Model for SaveStack<B> {
    ghost use Rattle.std.specs.Prelude.{reverse};
    ghost use Rattle.tx_save.specs.Levels.{level_at};
    ghost use Rattle.tx_save.specs.Saves.{Saves, IsLeveled};

    ghost Value = { Saves B };

    ghost view = { λ s. record { stack = reverse s.saves.items; levels = s.levels.entries; group = s.group; level = s.level } };

    ghost invariant = { λ s. IsLeveled s.level (level_at s.levels.entries) (reverse s.saves.items) };
}

impl<B> SaveStack<B> {
    /// No group is open.
    pub fn new(alloc: Global) -> Self
        ensures { result ≡ outermost }
    {
        SaveStack {
            saves: Vec::new(alloc),
            levels: IndexMap::new(alloc),
            group: Group {
                kind: GroupKind::Simple,
                after: Toks::new(alloc),
            },
            level: 1,
        }
    }

    /// The level: 1 where no group is open. There all that is saved goes back into any table, and there is no
    /// map but the present one.
    pub fn level(&self) -> u8
        ensures level { result ≡ self.now.level }
        ensures least { 0 < result }
        ensures outermost { self.now.level ≡ 1 → (table : Table B) → Fits table self.now }
        ensures alone { self.now.level ≡ 1 → (frozen : Map B) (table : Table B) → outside frozen table self.now ≡ [] }
    {
        self.level
    }

    /// The kind of the innermost open group. None comes exactly where no group is open.
    pub fn innermost(&self) -> Option<GroupKind>
        ensures { result ≡ option_map (λ group. group.kind) (slice_get (groups self.now) 0) }
    {
        if self.level == 1 {
            return None;
        }
        Some(self.group.kind)
    }

    /// Begins a group. The errors are that the level is 255 already, and want of memory. They change
    /// nothing.
    pub fn begin(&mut self, kind: GroupKind) -> Result<(), SaveRefused>
        ensures maps { OnOk result ((first : Map B) (now : Map B) → below first now (level_at self.new.levels) self.new.stack ≡ now ∷ below first now (level_at self.old.levels) self.old.stack) }
        ensures groups { OnOk result (groups self.new ≡ record { kind = kind; after = [] } ∷ groups self.old) }
        ensures level { OnOk result (self.new.level ≡ self.old.level + 1) }
        ensures full { (result ≡ Err SaveRefused.GroupsFull) ↔ (self.old.level ≡ 255) }
        ensures unchanged { OnErr result (self.new ≡ self.old) }
        ensures fits { (table : Table B) → Fits table self.old → Fits table self.new }
        ensures saved { saved self.new.stack ≡ saved self.old.stack }
    {
        if self.level == LAST_LEVEL {
            return Err(SaveRefused::GroupsFull);
        }
        if self.saves.reserve(1).is_err() {
            return Err(SaveRefused::Memory);
        }
        let group = Group {
            kind,
            after: Toks::new(*self.saves.allocator()),
        };
        let outer = mem::replace(&mut self.group, group);
        push_save(&mut self.saves, Save::Mark(outer));
        self.level += 1;
        Ok(())
    }

    /// Sets what an address means, in the innermost group alone or, where `global`, at all levels. What
    /// the address meant is saved, or it is handed out, where no group's end brings it back. Nothing is
    /// saved where no group is open. The only error is want of memory, which hands the meaning back and
    /// changes nothing. *TeX: The Program*, part 19.
    pub fn assign(
        &mut self,
        over: &mut Overlay<B>,
        at: Addr,
        m: Meaning<B>,
        global: bool,
    ) -> Result<Option<Meaning<B>>, Meaning<B>>
        requires { Fits over.old self.old }
        ensures now { OnOk result (Sets over.old at m over.new) }
        ensures before { OnOk result (KeepsBefore over.old over.new) }
        ensures outside { OnOk result (ChangesOutside global at m over.old self.old over.new self.new) }
        ensures fits { OnOk result (Fits over.new self.new) }
        ensures groups { groups self.new ≡ groups self.old }
        ensures level { self.new.level ≡ self.old.level }
        ensures held { IfOk result (λ out. SameCounts (m ∷ all_held over.old self.old) (option_to_list out ++ all_held over.new self.new)) }
        ensures handed_back { IfErr result (λ back. back ≡ m) }
        ensures unchanged { OnErr result (over.new ≡ over.old) }
        ensures unsaved { OnErr result (self.new ≡ self.old) }
    {
        if global {
            return self.assign_everywhere(over, at, m);
        }
        if self.level == 1 {
            return self.assign_outermost(over, at, m);
        }
        if level_of(&self.levels, at) == self.level {
            return self.assign_again(over, at, m);
        }
        self.assign_within(over, at, m)
    }

    /// Takes one saved meaning of the innermost group away: it is put back, or where what its address
    /// means is global it falls away. The meaning that is not held any more is handed out. Where the group
    /// has none left it ends, and its kind and the tokens that it leaves come. *TeX: The Program*, part 19.
    pub fn close(&mut self, over: &mut Overlay<B>) -> Closed<B>
        requires open { 1 < self.old.level }
        requires fits { Fits over.old self.old }
        ensures closes { Closes over.old self.old result over.new self.new }
        ensures before { KeepsBefore over.old over.new }
        ensures fits { Fits over.new self.new }
        ensures held { SameCounts (all_held over.old self.old) (dropped result ++ all_held over.new self.new) }
    {
        match pop_save(&mut self.saves) {
            Some(Save::Saved(at, old, level)) => {
                Closed::Dropped(unsave(&mut self.levels, over, at, old, level))
            }
            Some(Save::Mark(outer)) => {
                self.level -= 1;
                let Group { kind, after } = mem::replace(&mut self.group, outer);
                Closed::End(kind, after)
            }
            None => unreachable!(),
        }
    }

    /// Gives groups up, as where a region fails: takes the newest saved entry away and puts nothing back,
    /// whatever the overlay is, or ends the innermost group where it has none left. What the entry holds
    /// is handed out. None comes exactly where nothing is left. Then no group is open, and any table is
    /// one into which all that is saved goes back. It takes no memory.
    pub fn abandon(&mut self) -> Option<Closed<B>>
        ensures step { IfSome result (λ step. Abandons self.old step self.new) }
        ensures fewer { IfSome result (λ step. length self.old.stack ≡ length self.new.stack + 1) }
        ensures saved { saved self.old.stack ≡ abandoned result ++ saved self.new.stack }
        ensures held { (table : Table B) → SameCounts (all_held table self.old) (abandoned result ++ all_held table self.new) }
        ensures end { IfNone result ((self.old.stack ≡ []) × (self.old.level ≡ 1) × (groups self.old ≡ [])) }
        ensures unchanged { IfNone result (self.new ≡ self.old) }
        ensures fits { IfNone result ((table : Table B) → Fits table self.new) }
    {
        let newest = pop_save(&mut self.saves)?;
        match newest {
            Save::Saved(at, old, outer) => {
                give_level_back(&mut self.levels, at, outer);
                Some(Closed::Dropped(handed(old)))
            }
            Save::Mark(outer) => {
                self.level -= 1;
                let Group { kind, after } = mem::replace(&mut self.group, outer);
                Some(Closed::End(kind, after))
            }
        }
    }

    /// A global assignment.
    fn assign_everywhere(
        &mut self,
        over: &mut Overlay<B>,
        at: Addr,
        m: Meaning<B>,
    ) -> Result<Option<Meaning<B>>, Meaning<B>>
        requires { Fits over.old self.old }
        ensures now { OnOk result (Sets over.old at m over.new) }
        ensures before { OnOk result (KeepsBefore over.old over.new) }
        ensures outside { OnOk result (ChangesOutside true at m over.old self.old over.new self.new) }
        ensures fits { OnOk result (Fits over.new self.new) }
        ensures groups { groups self.new ≡ groups self.old }
        ensures level { self.new.level ≡ self.old.level }
        ensures held { IfOk result (λ out. SameCounts (m ∷ all_held over.old self.old) (option_to_list out ++ all_held over.new self.new)) }
        ensures handed_back { IfErr result (λ back. back ≡ m) }
        ensures unchanged { OnErr result (over.new ≡ over.old) }
        ensures unsaved { OnErr result (self.new ≡ self.old) }
    {
        let old = over.set(at, m)?;
        lower_level(&mut self.levels, at);
        Ok(handed(old))
    }

    /// An assignment where no group is open.
    fn assign_outermost(
        &mut self,
        over: &mut Overlay<B>,
        at: Addr,
        m: Meaning<B>,
    ) -> Result<Option<Meaning<B>>, Meaning<B>>
        requires fits { Fits over.old self.old }
        requires outermost { self.old.level ≡ 1 }
        ensures now { OnOk result (Sets over.old at m over.new) }
        ensures before { OnOk result (KeepsBefore over.old over.new) }
        ensures outside { OnOk result (ChangesOutside false at m over.old self.old over.new self.new) }
        ensures fits { OnOk result (Fits over.new self.new) }
        ensures groups { groups self.new ≡ groups self.old }
        ensures level { self.new.level ≡ self.old.level }
        ensures held { IfOk result (λ out. SameCounts (m ∷ all_held over.old self.old) (option_to_list out ++ all_held over.new self.new)) }
        ensures handed_back { IfErr result (λ back. back ≡ m) }
        ensures unchanged { OnErr result (over.new ≡ over.old) }
        ensures unsaved { OnErr result (self.new ≡ self.old) }
    {
        let _ = &self.level;
        self.assign_everywhere(over, at, m)
    }

    /// An assignment where the group has saved what it was already.
    fn assign_again(
        &mut self,
        over: &mut Overlay<B>,
        at: Addr,
        m: Meaning<B>,
    ) -> Result<Option<Meaning<B>>, Meaning<B>>
        requires fits { Fits over.old self.old }
        requires level { level_at self.old.levels at ≡ self.old.level }
        requires open { 1 < self.old.level }
        ensures now { OnOk result (Sets over.old at m over.new) }
        ensures before { OnOk result (KeepsBefore over.old over.new) }
        ensures outside { OnOk result (ChangesOutside false at m over.old self.old over.new self.new) }
        ensures fits { OnOk result (Fits over.new self.new) }
        ensures same { self.new ≡ self.old }
        ensures held { IfOk result (λ out. SameCounts (m ∷ all_held over.old self.old) (option_to_list out ++ all_held over.new self.new)) }
        ensures handed_back { IfErr result (λ back. back ≡ m) }
        ensures unchanged { OnErr result (over.new ≡ over.old) }
    {
        let _ = &self.level;
        let old = over.set(at, m)?;
        Ok(handed(old))
    }

    /// An assignment whose group saves what it was.
    fn assign_within(
        &mut self,
        over: &mut Overlay<B>,
        at: Addr,
        m: Meaning<B>,
    ) -> Result<Option<Meaning<B>>, Meaning<B>>
        requires fits { Fits over.old self.old }
        requires open { self.old.level ≢ 1 }
        ensures now { OnOk result (Sets over.old at m over.new) }
        ensures before { OnOk result (KeepsBefore over.old over.new) }
        ensures outside { OnOk result (ChangesOutside false at m over.old self.old over.new self.new) }
        ensures fits { OnOk result (Fits over.new self.new) }
        ensures groups { groups self.new ≡ groups self.old }
        ensures level { self.new.level ≡ self.old.level }
        ensures held { IfOk result (λ out. SameCounts (m ∷ all_held over.old self.old) (option_to_list out ++ all_held over.new self.new)) }
        ensures handed_back { IfErr result (λ back. back ≡ m) }
        ensures unchanged { OnErr result (over.new ≡ over.old) }
        ensures unsaved { OnErr result (self.new ≡ self.old) }
    {
        if self.saves.reserve(1).is_err() {
            return Err(m);
        }
        if self.levels.reserve(1).is_err() {
            return Err(m);
        }
        let old = over.set(at, m)?;
        let level = level_of(&self.levels, at);
        push_save(&mut self.saves, Save::Saved(at, old, level));
        write_level(&mut self.levels, at, self.level);
        Ok(None)
    }

    /// Adds a token to those that the innermost group leaves for its end. The only error is want of
    /// memory, which changes nothing.
    pub fn after(&mut self, t: Tok) -> Result<(), AllocError>
        requires { 1 < self.old.level }
        ensures ok { OnOk result (self.new ≡ record self.old { group = record self.old.group { after = self.old.group.after ++ t ∷ [] } }) }
        ensures unchanged { OnErr result (self.new ≡ self.old) }
    {
        let after = &mut self.group.after;
        after.0.push(t)?;
        Ok(())
    }
}

/// Puts back what was saved of an address, unless what it means is global.
fn unsave<B>(
    levels: &mut IndexMap<Addr, u8>,
    over: &mut Overlay<B>,
    at: Addr,
    old: Old<B>,
    level: u8,
) -> Option<Meaning<B>>
    requires { CanUnsave (noted over.old) (level_at levels.old.entries) at old }
    ensures unsaved { Unsaves over.old (level_at levels.old.entries) at old level over.new (level_at levels.new.entries) }
    ensures before { KeepsBefore over.old over.new }
    ensures held { SameCounts (moved old ++ held over.old) (option_to_list result ++ held over.new) }
{
    if level_of(levels, at) == 1 {
        return handed(old);
    }
    let m = over.put_back(at, old);
    write_level(levels, at, level);
    Some(m)
}

/// The meaning that an answer hands out.
fn handed<B>(old: Old<B>) -> Option<Meaning<B>>
    ensures { option_to_list result ≡ moved old }
{
    match old {
        Old::Moved(m) => Some(m),
        Old::Frozen => None,
        Old::Kept => None,
    }
}

/// Adds an entry to a stack that has room for it.
fn push_save<B>(saves: &mut Vec<Save<B>>, save: Save<B>)
    requires { length saves.old.items < vec_capacity saves.old }
    ensures { reverse saves.new.items ≡ save ∷ reverse saves.old.items }
{
    saves.push(save).unwrap();
}

/// Takes the newest entry off.
fn pop_save<B>(saves: &mut Vec<Save<B>>) -> Option<Save<B>>
    ensures top { reverse saves.old.items ≡ option_to_list result ++ reverse saves.new.items }
    ensures none { IfNone result (reverse saves.old.items ≡ []) }
{
    saves.pop()
}
