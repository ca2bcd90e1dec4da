//! The table of one session, over the frozen table.

ghost use Rattle.std.specs.Prelude.{◌≡◌, ◌∷◌, ◌++◌, [], ◌<◌, None, Some, IsSome, option_and_then, length, IfOk, IfErr, OnOk, OnErr, IfSome, IfNone};
ghost use Rattle.std.specs.Map.{values_of};
ghost use Rattle.std.specs.Option.{option_to_list};
ghost use Rattle.tx_eqtb.specs.declared.addr.Addr.{Addr};
ghost use Rattle.tx_eqtb.specs.Addresses.{entry_at, update};
ghost use Rattle.tx_eqtb.specs.Meanings.{Map, meanings};
ghost use Rattle.tx_eqtb.specs.Tables.{nothing_set, entry, noted, now, before, held, in_note, kept, SameCounts};
ghost use Rattle.tx_eqtb.specs.Steps.{Sets, KeepsNow, KeepsBefore, answer, note, moved, Answered, GoesBack, meaning_back, entry_back, note_back, entry_before, IsLeftOf, where_noted};

use crate::addr::Addr;
use crate::frozen::Frozen;
use crate::maps::{add, pop, remove, replace};
use crate::meaning::{Before, Meaning, Old};
use indexmap::IndexMap;
use std::alloc::Global;
use std::marker::Model;

/// What a session has set, over a frozen table, and the way back to what was before the region.
#[derive(Drop)]
pub struct Overlay<B> {
    entries: IndexMap<Addr, Meaning<B>>,
    journal: IndexMap<Addr, Before<B>>,
}

impl<B> Model for Overlay<B> {
    ghost use Rattle.tx_eqtb.specs.Tables.{Table, IsNoted};

    ghost Value = { Table B };

    ghost view = { λ o. record { entries = o.entries.entries; journal = o.journal.entries } };

    ghost invariant = { λ o. IsNoted o.entries.entries o.journal.entries };
}

impl<B> Overlay<B> {
    /// A table in which nothing is set.
    pub fn new(alloc: Global) -> Self
        ensures { result ≡ nothing_set }
    {
        Overlay {
            entries: IndexMap::new(alloc),
            journal: IndexMap::new(alloc),
        }
    }

    /// Sets what an address means. The answer says what was there: no entry; an entry, which is kept for
    /// the undo since this is the region's first change there; or an entry, which is handed out. The only
    /// error is want of memory, which hands the meaning back and changes nothing.
    pub fn set(&mut self, at: Addr, m: Meaning<B>) -> Result<Old<B>, Meaning<B>>
        ensures now { OnOk result (Sets self.old at m self.new) }
        ensures before { OnOk result (KeepsBefore self.old self.new) }
        ensures old { IfOk result (λ old. old ≡ answer (noted self.old at) (entry self.old at)) }
        ensures entries { OnOk result ((q : Addr) → entry self.new q ≡ update (entry self.old) at (Some m) q) }
        ensures journal { OnOk result ((q : Addr) → noted self.new q ≡ update (noted self.old) at (Some (note (noted self.old at) (entry self.old at))) q) }
        ensures held { IfOk result (λ old. SameCounts (m ∷ held self.old) (moved old ++ held self.new)) }
        ensures goes_back { IfOk result (λ old. GoesBack self.old at old self.new) }
        ensures handed_back { IfErr result (λ back. back ≡ m) }
        ensures unchanged { OnErr result (self.new ≡ self.old) }
    {
        if self.journal.contains_key(&at) {
            return Ok(Old::Moved(replace(&mut self.entries, at, m)));
        }
        if self.journal.reserve(1).is_err() {
            return Err(m);
        }
        match self.entries.insert(at, m) {
            Ok(Some(old)) => {
                add(&mut self.journal, at, Before::Kept(old));
                Ok(Old::Kept)
            }
            Ok(None) => {
                add(&mut self.journal, at, Before::Frozen);
                Ok(Old::Frozen)
            }
            Err(failed) => Err(failed.value.1),
        }
    }

    /// What an address means now.
    pub fn get<'a>(&'a self, frozen: &'a Frozen<B>, at: Addr) -> &'a Meaning<B>
        ensures { result.now ≡ now (meanings frozen.now) self.now at }
    {
        match self.entries.get(&at) {
            Some(m) => m,
            None => frozen.get(at),
        }
    }

    /// Keeps what the region set. Each call takes entries of the journal up to the first from which a
    /// meaning falls away, and hands that meaning out. None comes exactly where the journal is used up.
    pub fn keep(&mut self) -> Option<Meaning<B>>
        ensures now { KeepsNow self.old self.new }
        ensures before { (frozen : Map B) (q : Addr) → before frozen self.new q ≡ where_noted self.new (before frozen self.old) (now frozen self.old) q }
        ensures entries { self.new.entries ≡ self.old.entries }
        ensures journal { IsLeftOf self.old.journal self.new.journal }
        ensures fewer { IfSome result (λ m. length self.new.journal < length self.old.journal) }
        ensures end { IfNone result (self.new.journal ≡ []) }
        ensures held { SameCounts (held self.old) (option_to_list result ++ held self.new) }
    {
        pop_kept(&mut self.journal)
    }

    /// Undoes what the region set. Each call takes entries of the journal up to the first from which a
    /// meaning falls away, gives their addresses the meanings from before the region, and hands the
    /// meaning out. None comes exactly where the journal is used up.
    pub fn undo(&mut self) -> Option<Meaning<B>>
        ensures now { (frozen : Map B) (q : Addr) → now frozen self.new q ≡ where_noted self.new (now frozen self.old) (before frozen self.old) q }
        ensures before { KeepsBefore self.old self.new }
        ensures journal { IsLeftOf self.old.journal self.new.journal }
        ensures fewer { IfSome result (λ m. length self.new.journal < length self.old.journal) }
        ensures end { IfNone result (self.new.journal ≡ []) }
        ensures held { SameCounts (held self.old) (option_to_list result ++ held self.new) }
    {
        let (at, before) = pop(&mut self.journal)?;
        Some(restore(&mut self.entries, at, before))
    }

    /// Puts back what an address was before it was set, where `old` is what `set` answered then and what
    /// the journal says of the address is as `set` left it. The meaning that was there is handed out.
    pub fn put_back(&mut self, at: Addr, old: Old<B>) -> Meaning<B>
        requires { Answered (noted self.old at) old }
        ensures now { (frozen : Map B) (q : Addr) → now frozen self.new q ≡ update (now frozen self.old) at (meaning_back (before frozen self.old at) old) q }
        ensures before { KeepsBefore self.old self.new }
        ensures handed_out { entry self.old at ≡ Some result }
        ensures entries { (q : Addr) → entry self.new q ≡ update (entry self.old) at (entry_back (noted self.old at) old) q }
        ensures journal { (q : Addr) → noted self.new q ≡ update (noted self.old) at (note_back (noted self.old at) old) q }
        ensures held { SameCounts (moved old ++ held self.old) (result ∷ held self.new) }
    {
        match old {
            Old::Moved(m) => replace(&mut self.entries, at, m),
            Old::Frozen => self.give_back(at),
            Old::Kept => self.give_back(at),
        }
    }

    /// Gives an address of the journal what it had before the region.
    fn give_back(&mut self, at: Addr) -> Meaning<B>
        requires { IsSome (noted self.old at) }
        ensures now { (frozen : Map B) (q : Addr) → now frozen self.new q ≡ update (now frozen self.old) at (before frozen self.old at) q }
        ensures before { KeepsBefore self.old self.new }
        ensures handed_out { entry self.old at ≡ Some result }
        ensures entries { (q : Addr) → entry self.new q ≡ update (entry self.old) at (option_and_then entry_before (noted self.old at)) q }
        ensures journal { (q : Addr) → noted self.new q ≡ update (noted self.old) at None q }
        ensures held { SameCounts (held self.old) (result ∷ held self.new) }
    {
        let before = remove(&mut self.journal, at);
        restore(&mut self.entries, at, before)
    }

    /// Takes one entry out and hands out its meaning. None comes exactly where no entry is left.
    pub fn empty(&mut self) -> Option<Meaning<B>>
        requires { self.old.journal ≡ [] }
        ensures journal { self.new.journal ≡ [] }
        ensures entries { (q : Addr) → IsSome (entry self.new q) → entry self.new q ≡ entry self.old q }
        ensures fewer { IfSome result (λ m. length self.new.entries < length self.old.entries) }
        ensures end { IfNone result (self.new.entries ≡ []) }
        ensures held { SameCounts (held self.old) (option_to_list result ++ held self.new) }
    {
        let (_, m) = pop(&mut self.entries)?;
        Some(m)
    }
}

/// Gives an address again what the journal said of it, and hands out what it was.
fn restore<B>(entries: &mut IndexMap<Addr, Meaning<B>>, at: Addr, before: Before<B>) -> Meaning<B>
    requires { IsSome (entry_at entries.old.entries at) }
    ensures value { entry_at entries.old.entries at ≡ Some result }
    ensures found { (q : Addr) → entry_at entries.new.entries q ≡ update (entry_at entries.old.entries) at (entry_before before) q }
    ensures counts { SameCounts (in_note before ++ values_of entries.old.entries) (result ∷ values_of entries.new.entries) }
{
    match before {
        Before::Frozen => remove(entries, at),
        Before::Kept(m) => replace(entries, at, m),
    }
}

/// Takes entries of a journal up to the first that keeps a meaning.
fn pop_kept<B>(journal: &mut IndexMap<Addr, Before<B>>) -> Option<Meaning<B>>
    ensures left { IsLeftOf journal.old.entries journal.new.entries }
    ensures fewer { IfSome result (λ m. length journal.new.entries < length journal.old.entries) }
    ensures end { IfNone result (journal.new.entries ≡ []) }
    ensures counts { SameCounts (kept journal.old.entries) (option_to_list result ++ kept journal.new.entries) }
{
    while let Some((_, before)) = pop(journal) {
        match before {
            Before::Frozen => {}
            Before::Kept(m) => return Some(m),
        }
    }
    None
}
