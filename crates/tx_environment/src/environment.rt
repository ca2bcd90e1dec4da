//! The environment.

ghost use Rattle.std.specs.Prelude.{◌≡◌, ◌+◌, ◌<◌, ◌↔◌, [], ◌∷◌, ◌++◌, Err, IfOk, IfErr, IfSome, IfNone, IsSome, OnOk, OnErr, length, reverse, vec_capacity};
ghost use Rattle.std.specs.Option.{option_to_list};
ghost use Rattle.tx_node.specs.declared.BoxNode.{BoxNode};
ghost use Rattle.tx_scan.specs.Scans.{category_by};
ghost use Rattle.tx_eqtb.specs.declared.addr.Addr.{Addr};
ghost use Rattle.tx_eqtb.specs.Meanings.{Map, meanings};
ghost use Rattle.tx_eqtb.specs.Tables.{entry, now, before, SameCounts};
ghost use Rattle.tx_eqtb.specs.Steps.{KeepsNow, KeepsBefore, IsLeftOf, where_noted};
ghost use Rattle.tx_save.specs.Saves.{groups, Fits, Abandons, dropped, abandoned};
ghost use Rattle.tx_private.specs.Environment.{assigning, beginning, category_of as category_now, integer_in, meaning_of, parameter_of, present};
ghost use Rattle.tx_private.specs.Expansions.{list_in as tokens_of};
ghost use Rattle.tx_private.specs.Quantities.{is_math as is_math_address, quantity_in};
ghost use Rattle.tx_views.specs.Views.{View, IsView, viewed, list_in};
ghost use Rattle.tx_views.specs.Places.{address_in, addr_of};
ghost use Rattle.tx_views.specs.Meanings.{map_in, meaning_in, sense_in};
ghost use Rattle.tx_environment.specs.States.{environment};
ghost use Rattle.tx_environment.specs.Soundness.{IsSound, IsClosing, IsPresent, IsFirst};
ghost use Rattle.tx_environment.specs.Changes.{HasAround, IsLeft, IsGivenUp};
ghost use Rattle.tx_environment.specs.Steps.{IsOpen, IsOutermost, innermost, alone, leaving, keeping_for_end, Closes, Ends, Leaves, IsFewer, entries_saved, held};
ghost use Rattle.tx_environment.specs.Holding.{pooled_in, pooled_of, pooled_of_sense, HasNoPooled, IsHeldIn};

use crate::categories::{categories_of, category_of, give, give_around};
use crate::values::{integer_of, is_math, list_of, quantity_of};
use std::alloc::{AllocError, Global};
use std::marker::Model;
use tx_eqtb::{Frozen, Meaning, Overlay};
use tx_node::BoxNode;
use tx_num::Quant;
use tx_prims::primitives::IntegerParameter;
use tx_save::{Closed, GroupKind, SaveRefused, SaveStack};
use tx_scan::Cats;
use tx_tok::{ListRef, Tok};
use tx_views::{CodeTable, Place, Sense};

/// The level at which no group is open. *TeX: The Program*, part 17.
const OUTERMOST_LEVEL: u8 = 1;

/// The level within which no group has room.
const LAST_LEVEL: u8 = 255;

/// What every address means in a session, over a frozen table, with the open groups and the categories of bytes,
/// and with the way back to what was before a region. *The TeXbook*, chapter 24.
///
/// A region begins by `begin_region`. One that goes well ends by `keep`, called until None comes. One that fails
/// ends by `undo` and `abandon`, each called until None comes, and then by `given_back`.
#[derive(Drop)]
pub struct Environment {
    /// What was set, over the frozen table.
    over: Overlay<BoxNode>,
    /// The open groups, with what local assignments replaced.
    save: SaveStack<BoxNode>,
    /// The categories now.
    cats: Cats,
    /// Those around each open group, the innermost last.
    outer: Vec<Cats>,
    /// Those before the region.
    first: Cats,
}

impl Model for Environment {
    ghost use Rattle.std.specs.Prelude.{reverse};
    ghost use Rattle.tx_environment.specs.States.{State, IsCounted};

    ghost Value = { State };

    ghost view = { λ e. record { table = e.over; saves = e.save; cats = e.cats; outer = reverse e.outer.items; first = e.first } };

    ghost invariant = { λ e. IsCounted (record { table = e.over; saves = e.save; cats = e.cats; outer = reverse e.outer.items; first = e.first }) };
}

impl Environment {
    /// The environment of the frozen table: nothing is set, and no group is open.
    pub fn new(alloc: Global, frozen: &Frozen<BoxNode>) -> Self
        ensures sound { IsSound (meanings frozen.now) result }
        ensures environment { (view : View) → environment view (meanings frozen.now) result ≡ alone (map_in view (meanings frozen.now)) }
        ensures outermost { IsOutermost result }
        ensures journal { result.table.journal ≡ [] }
        ensures held { held result ≡ [] }
    {
        let cats = categories_of(frozen);
        Environment {
            over: Overlay::new(alloc),
            save: SaveStack::new(alloc),
            cats,
            outer: Vec::new(alloc),
            first: cats,
        }
    }

    /// The present categories, as the scanner wants them. *The TeXbook*, chapter 7.
    pub fn cats(&self) -> &Cats
        ensures same { result.now ≡ self.now.cats }
        ensures categories { (view : View) (frozen : Map BoxNode) → IsSound frozen self.now → category_by result.now ≡ category_now (environment view frozen self.now) }
    {
        &self.cats
    }

    /// What a token means now, as a value of its own. A macro's parameter, and what stands between a macro's
    /// parameter text and its body, mean nothing. A pooled list in it is one that is held, where the frozen table has
    /// none. *TeX: The Program*, part 24.
    pub fn sense(&self, frozen: &Frozen<BoxNode>, token: Tok) -> Sense
        ensures means { (view : View) → IsView view → sense_in view result ≡ meaning_of (environment view (meanings frozen.now) self.now) (viewed view token) }
        ensures holds { HasNoPooled (meanings frozen.now) → IsHeldIn (held self.now) (pooled_of_sense result) }
    {
        match token {
            Tok::Char(cat, byte) => Sense::Char(cat, byte),
            Tok::Name(number) => Sense::of(self.meaning(frozen, Place::Name(number))),
            Tok::Active(byte) => Sense::of(self.meaning(frozen, Place::Active(byte))),
            Tok::Param(_) => Sense::Undefined,
            Tok::Stop => Sense::Undefined,
        }
    }

    /// The value of a parameter that is an integer. *TeX: The Program*, part 17.
    pub fn integer(&self, frozen: &Frozen<BoxNode>, parameter: IntegerParameter) -> i32
        ensures { (view : View) → IsView view → result ≡ parameter_of (environment view (meanings frozen.now) self.now) parameter }
    {
        integer_of(self.meaning(frozen, Place::Integer(parameter)))
    }

    /// The code of a byte in a table. *TeX: The Program*, part 17.
    pub fn code(&self, frozen: &Frozen<BoxNode>, table: CodeTable, byte: u8) -> i32
        ensures { (view : View) → IsView view → result ≡ integer_in (present (environment view (meanings frozen.now) self.now) (address_in view (Place.Code table byte))) }
    {
        integer_of(self.meaning(frozen, Place::Code(table, byte)))
    }

    /// What a place means as a quantity, which is math glue at a register of `\muskip` and at a parameter that is
    /// math glue. What is no quantity counts as the integer 0. *TeX: The Program*, section 413.
    pub fn quantity(&self, frozen: &Frozen<BoxNode>, place: Place) -> Quant
        ensures { (view : View) → IsView view → result ≡ quantity_in (is_math_address (address_in view place)) (present (environment view (meanings frozen.now) self.now) (address_in view place)) }
    {
        quantity_of(self.meaning(frozen, place), is_math(place))
    }

    /// The list of tokens that a place means. What is no list counts as the one without tokens. A pooled list is one
    /// that is held, where the frozen table has none. *TeX: The Program*, section 415.
    pub fn list(&self, frozen: &Frozen<BoxNode>, place: Place) -> ListRef
        ensures means { (view : View) → IsView view → list_in view result ≡ tokens_of (present (environment view (meanings frozen.now) self.now) (address_in view place)) }
        ensures holds { HasNoPooled (meanings frozen.now) → IsHeldIn (held self.now) (pooled_in result) }
    {
        list_of(self.meaning(frozen, place))
    }

    /// What a place means.
    fn meaning<'a>(&'a self, frozen: &'a Frozen<BoxNode>, place: Place) -> &'a Meaning<BoxNode>
        ensures means { (view : View) → IsView view → meaning_in view result.now ≡ present (environment view (meanings frozen.now) self.now) (address_in view place) }
        ensures holds { HasNoPooled (meanings frozen.now) → IsHeldIn (held self.now) (pooled_of result.now) }
    {
        self.over.get(frozen, place.addr())
    }

    /// The kind of the innermost open group. None comes exactly where no group is open.
    pub fn group(&self) -> Option<GroupKind>
        ensures kind { (view : View) (frozen : Map BoxNode) → result ≡ innermost (environment view frozen self.now) }
        ensures open { IfSome result (λ kind. IsOpen self.now) }
        ensures outermost { IfNone result (IsOutermost self.now) }
    {
        self.save.innermost()
    }

    /// How many groups are open: at most 254.
    pub fn groups(&self) -> u8
        ensures count { (view : View) (frozen : Map BoxNode) → length (environment view frozen self.now).groups ≡ result }
        ensures same { length (groups self.now.saves) ≡ result }
        ensures most { result < 255 }
    {
        self.save.level() - OUTERMOST_LEVEL
    }

    /// Begins a group. `GroupsFull` comes exactly where 254 groups are open, and the other error is want of
    /// memory. Both change nothing. *TeX: The Program*, section 274.
    pub fn begin(&mut self, kind: GroupKind) -> Result<(), SaveRefused>
        ensures begun { OnOk result ((view : View) (frozen : Map BoxNode) → environment view frozen self.new ≡ beginning kind (environment view frozen self.old)) }
        ensures sound { OnOk result ((frozen : Map BoxNode) → IsSound frozen self.old → IsSound frozen self.new) }
        ensures before { KeepsBefore self.old.table self.new.table }
        ensures opened { OnOk result (groups self.new.saves ≡ record { kind = kind; after = [] } ∷ groups self.old.saves) }
        ensures groups { OnOk result (length (groups self.new.saves) ≡ length (groups self.old.saves) + 1) }
        ensures held { held self.new ≡ held self.old }
        ensures full { (result ≡ Err SaveRefused.GroupsFull) ↔ (length (groups self.old.saves) ≡ 254) }
        ensures unchanged { OnErr result (self.new ≡ self.old) }
    {
        if self.save.level() == LAST_LEVEL {
            return Err(SaveRefused::GroupsFull);
        }
        if self.outer.reserve(1).is_err() {
            return Err(SaveRefused::Memory);
        }
        self.save.begin(kind)?;
        push_within(&mut self.outer, self.cats);
        Ok(())
    }

    /// Adds a token to those that the innermost group leaves for its end. Where no group is open the token is
    /// dropped. The only error is want of memory, which changes nothing. *TeX: The Program*, section 326.
    pub fn after(&mut self, token: Tok) -> Result<(), AllocError>
        ensures kept { OnOk result ((view : View) (frozen : Map BoxNode) → environment view frozen self.new ≡ keeping_for_end (viewed view token) (environment view frozen self.old)) }
        ensures sound { (frozen : Map BoxNode) → IsSound frozen self.old → IsSound frozen self.new }
        ensures others { self.new ≡ record self.old { saves = self.new.saves } }
        ensures leaves { OnOk result (groups self.new.saves ≡ leaving token (groups self.old.saves)) }
        ensures groups { length (groups self.new.saves) ≡ length (groups self.old.saves) }
        ensures held { held self.new ≡ held self.old }
        ensures unchanged { OnErr result (self.new ≡ self.old) }
    {
        if self.save.level() == OUTERMOST_LEVEL {
            return Ok(());
        }
        self.save.after(token)
    }

    /// Gives a place a meaning, in the innermost group alone or, where `global`, at all levels. A meaning that no
    /// group's end and no undo brings back is handed out. The only error is want of memory, which hands the meaning
    /// back and changes nothing. *TeX: The Program*, sections 277 to 279.
    pub fn assign(
        &mut self,
        place: Place,
        meaning: Meaning<BoxNode>,
        global: bool,
    ) -> Result<Option<Meaning<BoxNode>>, Meaning<BoxNode>>
        requires { Fits self.old.table self.old.saves }
        ensures assigned { OnOk result ((view : View) → IsView view → (frozen : Map BoxNode) → environment view frozen self.new ≡ assigning global (address_in view place) (meaning_in view meaning) (environment view frozen self.old)) }
        ensures sound { OnOk result ((frozen : Map BoxNode) → IsSound frozen self.old → IsSound frozen self.new) }
        ensures before { KeepsBefore self.old.table self.new.table }
        ensures groups { groups self.new.saves ≡ groups self.old.saves }
        ensures held { IfOk result (λ out. SameCounts (meaning ∷ held self.old) (option_to_list out ++ held self.new)) }
        ensures handed_back { IfErr result (λ back. back ≡ meaning) }
        ensures unchanged { OnErr result (self.new ≡ self.old) }
    {
        let category = category_of(&meaning);
        let out = self
            .save
            .assign(&mut self.over, place.addr(), meaning, global)?;
        give(&mut self.cats, place, category);
        give_around(self.outer.as_mut_slice(), place, category, global);
        Ok(out)
    }

    /// Takes one step of the end of the innermost group. `Dropped` takes a saved entry away, and with it a meaning
    /// that is handed out, if there is one; until `End` comes the categories aren't the present ones. `End` hands
    /// out the kind of the group that has ended and the tokens that it leaves. *TeX: The Program*, section 281.
    pub fn close(&mut self) -> Closed<BoxNode>
        requires open { IsOpen self.old }
        requires fits { Fits self.old.table self.old.saves }
        ensures closes { (view : View) (frozen : Map BoxNode) → Closes view frozen self.old result self.new }
        ensures leaves { (frozen : Map BoxNode) → IsClosing frozen self.old → Leaves frozen result self.new }
        ensures ends { Ends (groups self.old.saves) result (groups self.new.saves) }
        ensures fits { Fits self.new.table self.new.saves }
        ensures fewer { IsFewer self.old result self.new }
        ensures before { KeepsBefore self.old.table self.new.table }
        ensures held { SameCounts (held self.old) (dropped result ++ held self.new) }
    {
        let step = self.save.close(&mut self.over);
        leave(&mut self.cats, &mut self.outer, &step);
        step
    }

    /// Begins a region, outside of all groups: what is set from now on can be undone.
    pub fn begin_region(&mut self)
        requires journal { self.old.table.journal ≡ [] }
        requires outermost { IsOutermost self.old }
        ensures others { self.new ≡ record self.old { first = self.old.cats } }
        ensures sound { (frozen : Map BoxNode) → IsPresent frozen self.old → IsSound frozen self.new }
    {
        // A call by which the check knows that nothing is saved outside of all groups.
        let _level = self.save.level();
        self.first = self.cats;
    }

    /// Keeps what the region set. Each call takes entries of the journal up to the first from which a meaning falls
    /// away, and hands that meaning out. None comes exactly where the journal is used up.
    pub fn keep(&mut self) -> Option<Meaning<BoxNode>>
        ensures others { self.new ≡ record self.old { table = self.new.table } }
        ensures now { KeepsNow self.old.table self.new.table }
        ensures before { (frozen : Map BoxNode) (q : Addr) → before frozen self.new.table q ≡ where_noted self.new.table (before frozen self.old.table) (now frozen self.old.table) q }
        ensures present { (frozen : Map BoxNode) → IsPresent frozen self.old → IsPresent frozen self.new }
        ensures entries { self.new.table.entries ≡ self.old.table.entries }
        ensures journal { IsLeftOf self.old.table.journal self.new.table.journal }
        ensures environment { IsOutermost self.old → (view : View) (frozen : Map BoxNode) → environment view frozen self.new ≡ environment view frozen self.old }
        ensures fewer { IfSome result (λ m. length self.new.table.journal < length self.old.table.journal) }
        ensures end { IfNone result (self.new.table.journal ≡ []) }
        ensures held { SameCounts (held self.old) (option_to_list result ++ held self.new) }
    {
        self.over.keep()
    }

    /// Undoes what the region set. Each call takes entries of the journal up to the first from which a meaning falls
    /// away, gives their addresses the meanings from before the region, and hands the meaning out. None comes
    /// exactly where the journal is used up. From the first call on nothing but `undo`, `abandon` and `given_back`
    /// makes sense, until the last of these.
    pub fn undo(&mut self) -> Option<Meaning<BoxNode>>
        ensures others { self.new ≡ record self.old { table = self.new.table } }
        ensures now { (frozen : Map BoxNode) (q : Addr) → now frozen self.new.table q ≡ where_noted self.new.table (now frozen self.old.table) (before frozen self.old.table) q }
        ensures before { KeepsBefore self.old.table self.new.table }
        ensures first { (frozen : Map BoxNode) → IsFirst frozen self.old → IsFirst frozen self.new }
        ensures journal { IsLeftOf self.old.table.journal self.new.table.journal }
        ensures fewer { IfSome result (λ m. length self.new.table.journal < length self.old.table.journal) }
        ensures end { IfNone result (self.new.table.journal ≡ []) }
        ensures held { SameCounts (held self.old) (option_to_list result ++ held self.new) }
    {
        self.over.undo()
    }

    /// Gives groups up: takes the newest saved entry away and puts nothing back, or ends the innermost group where
    /// it has none left. What the entry holds is handed out. None comes exactly where nothing is left.
    pub fn abandon(&mut self) -> Option<Closed<BoxNode>>
        ensures others { self.new ≡ record self.old { saves = self.new.saves; outer = self.new.outer } }
        ensures step { IfSome result (λ step. Abandons self.old.saves step self.new.saves) }
        ensures before { KeepsBefore self.old.table self.new.table }
        ensures first { (frozen : Map BoxNode) → IsFirst frozen self.old → IsFirst frozen self.new }
        ensures fewer { IfSome result (λ step. entries_saved self.old ≡ entries_saved self.new + 1) }
        ensures end { IfNone result (self.new.saves.stack ≡ []) }
        ensures unchanged { IfNone result (self.new ≡ self.old) }
        ensures held { SameCounts (held self.old) (abandoned result ++ held self.new) }
    {
        let step = self.save.abandon()?;
        give_up(&mut self.outer, &step);
        Some(step)
    }

    /// Ends the giving back of a region that failed, where `undo` and `abandon` have both answered None: the
    /// environment is that from before the region.
    pub fn given_back(&mut self)
        requires journal { self.old.table.journal ≡ [] }
        requires saves { self.old.saves.stack ≡ [] }
        ensures others { self.new ≡ record self.old { cats = self.old.first; outer = [] } }
        ensures sound { (frozen : Map BoxNode) → IsFirst frozen self.old → IsSound frozen self.new }
        ensures environment { (view : View) (frozen : Map BoxNode) → environment view frozen self.new ≡ alone (map_in view (before frozen self.old.table)) }
    {
        self.cats = self.first;
    }

    /// Takes one entry out, for a session's end, and hands its meaning out. None comes exactly where no entry is
    /// left. Nothing but further calls makes sense then.
    pub fn empty(&mut self) -> Option<Meaning<BoxNode>>
        requires { self.old.table.journal ≡ [] }
        ensures others { self.new ≡ record self.old { table = self.new.table } }
        ensures journal { self.new.table.journal ≡ [] }
        ensures entries { (q : Addr) → IsSome (entry self.new.table q) → entry self.new.table q ≡ entry self.old.table q }
        ensures fewer { IfSome result (λ m. length self.new.table.entries < length self.old.table.entries) }
        ensures end { IfNone result (self.new.table.entries ≡ []) }
        ensures held { SameCounts (held self.old) (option_to_list result ++ held self.new) }
    {
        self.over.empty()
    }

    /// The table alone, without the open groups.
    pub fn into_overlay(self) -> Overlay<BoxNode>
        ensures { result ≡ self.table }
    {
        let Environment { over, .. } = self;
        over
    }
}

/// Adds the categories around a group that begins, where there is room for them.
fn push_within(outer: &mut Vec<Cats>, cats: Cats)
    requires { length outer.old.items < vec_capacity outer.old }
    ensures { reverse outer.new.items ≡ cats ∷ reverse outer.old.items }
{
    outer.push(cats).unwrap();
}

/// Makes the categories around a group that has ended the present ones.
fn leave(cats: &mut Cats, outer: &mut Vec<Cats>, step: &Closed<BoxNode>)
    requires { HasAround step.now (reverse outer.old.items) }
    ensures { IsLeft step.now cats.old (reverse outer.old.items) cats.new (reverse outer.new.items) }
{
    match step {
        Closed::Dropped(_) => {}
        Closed::End(_, _) => *cats = pop_around(outer),
    }
}

/// Forgets the categories around a group that has ended.
fn give_up(outer: &mut Vec<Cats>, step: &Closed<BoxNode>)
    requires { HasAround step.now (reverse outer.old.items) }
    ensures { IsGivenUp step.now (reverse outer.old.items) (reverse outer.new.items) }
{
    match step {
        Closed::Dropped(_) => {}
        Closed::End(_, _) => {
            let _ = pop_around(outer);
        }
    }
}

/// Takes off the categories around the innermost group.
fn pop_around(outer: &mut Vec<Cats>) -> Cats
    requires { 0 < length (reverse outer.old.items) }
    ensures { reverse outer.old.items ≡ result ∷ reverse outer.new.items }
{
    outer.pop().unwrap()
}
