//! Tests.

ghost use Rattle.std.specs.Prelude.{◌≡◌, []};
ghost use Rattle.tx_node.specs.declared.BoxNode.{BoxNode};
ghost use Rattle.tx_eqtb.specs.Meanings.{Map, meanings};
ghost use Rattle.tx_save.specs.Saves.{Fits};
ghost use Rattle.tx_environment.specs.Soundness.{IsSound, IsPresent, IsFirst};
ghost use Rattle.tx_environment.specs.Steps.{IsOpen};

use crate::Environment;
use std::alloc::{AllocError, Global};
use std::marker::Model;
use std::test::Fail;
use tx_eqtb::{Entries, Frozen, Meaning, RegKind};
use tx_node::BoxNode;
use tx_num::{GlueSpec, Quant};
use tx_prims::primitives::{IntegerParameter, ListParameter};
use tx_save::{Closed, GroupKind};
use tx_tok::{Cat, ListRef, Tok};
use tx_views::{CodeTable, Place, Sense};

/// The first count register.
const COUNT: Place = Place::Register(RegKind::Count, 1);

/// The category of `@`.
const AT: Place = Place::Code(CodeTable::Categories, b'@');

/// What begins each paragraph.
const EVERY_PAR: Place = Place::List(ListParameter::EveryPar);

/// A call of a script.
#[derive(Clone, Copy)]
enum Call {
    /// A group begins.
    Begin(GroupKind),
    /// A place is given an integer, at all levels where the last is true.
    Set(Place, i32, bool),
    /// The innermost group ends.
    End,
    /// The region is kept, and another one begins.
    Keep,
    /// The region is given back.
    Fail,
    /// How many groups are open?
    Groups,
    /// What is a place as a quantity?
    Read(Place),
    /// What is the category of a byte by the scanner's table?
    Category(u8),
}

/// What a call answers.
#[derive(Clone, Copy, Debug, PartialEq)]
enum Answer {
    /// Whether it was done.
    Done(bool),
    /// The group that has ended, if one was open.
    Ended(Option<GroupKind>),
    /// A number.
    Count(u8),
    /// A quantity.
    Is(Quant),
    /// A category.
    Has(Cat),
}

/// An environment over a frozen table without entries.
#[derive(Drop)]
struct Session {
    frozen: Frozen<BoxNode>,
    environment: Environment,
}

impl Model for Session {
    ghost use Rattle.tx_eqtb.specs.Meanings.{meanings};
    ghost use Rattle.tx_environment.specs.States.{State};
    ghost use Rattle.tx_environment.specs.Soundness.{IsSound};

    ghost Value = { State };

    ghost view = { λ s. s.environment };

    ghost invariant = { λ s. IsSound (meanings s.frozen) s.environment };
}

/// A table without entries.
fn nothing(alloc: Global) -> Result<Frozen<BoxNode>, AllocError> {
    Frozen::new(alloc, Entries(Vec::new(alloc)))
}

/// Ends the innermost group.
fn end_group(environment: &mut Environment) -> GroupKind
    requires open { IsOpen environment.old }
    requires fits { Fits environment.old.table environment.old.saves }
    ensures { (frozen : Map BoxNode) → IsSound frozen environment.old → IsSound frozen environment.new }
{
    loop {
        match environment.close() {
            Closed::Dropped(_) => {}
            Closed::End(kind, _) => return kind,
        }
    }
}

/// Gives a region that failed back.
fn give_back(environment: &mut Environment)
    ensures { (frozen : Map BoxNode) → IsFirst frozen environment.old → IsSound frozen environment.new }
{
    undo_all(environment);
    abandon_all(environment);
    environment.given_back();
}

/// Undoes all that the region set.
fn undo_all(environment: &mut Environment)
    ensures journal { environment.new.table.journal ≡ [] }
    ensures first { (frozen : Map BoxNode) → IsFirst frozen environment.old → IsFirst frozen environment.new }
{
    while let Some(_) = environment.undo() {}
}

/// Gives all groups up.
fn abandon_all(environment: &mut Environment)
    ensures table { environment.new.table ≡ environment.old.table }
    ensures stack { environment.new.saves.stack ≡ [] }
    ensures first { (frozen : Map BoxNode) → IsFirst frozen environment.old → IsFirst frozen environment.new }
{
    while let Some(_) = environment.abandon() {}
}

/// Keeps all that the region set.
fn keep_all(environment: &mut Environment)
    ensures journal { environment.new.table.journal ≡ [] }
    ensures saves { environment.new.saves ≡ environment.old.saves }
    ensures present { (frozen : Map BoxNode) → IsPresent frozen environment.old → IsPresent frozen environment.new }
{
    while let Some(_) = environment.keep() {}
}

impl Session {
    /// Nothing is set.
    fn new(alloc: Global) -> Result<Self, AllocError> {
        let frozen = nothing(alloc)?;
        let environment = Environment::new(alloc, &frozen);
        Ok(Session {
            frozen,
            environment,
        })
    }

    /// Gives a place a meaning.
    fn set(&mut self, place: Place, meaning: Meaning<BoxNode>, global: bool) -> bool {
        self.environment.assign(place, meaning, global).is_ok()
    }

    /// Begins a group.
    fn begin(&mut self, kind: GroupKind) -> bool {
        self.environment.begin(kind).is_ok()
    }

    /// Ends the innermost group, if one is open.
    fn end(&mut self) -> Option<GroupKind> {
        if self.environment.groups() == 0 {
            return None;
        }
        Some(end_group(&mut self.environment))
    }

    /// Keeps the region and begins another one, where no group is open.
    fn keep(&mut self) -> bool {
        if self.environment.groups() > 0 {
            return false;
        }
        keep_all(&mut self.environment);
        self.environment.begin_region();
        true
    }

    /// Gives the region back.
    fn fail(&mut self) {
        give_back(&mut self.environment);
    }

    /// Plays a call.
    fn play(&mut self, call: Call) -> Answer {
        match call {
            Call::Begin(kind) => Answer::Done(self.begin(kind)),
            Call::Set(place, n, global) => Answer::Done(self.set(place, Meaning::Int(n), global)),
            Call::End => Answer::Ended(self.end()),
            Call::Keep => Answer::Done(self.keep()),
            Call::Fail => {
                self.fail();
                Answer::Done(true)
            }
            Call::Groups => Answer::Count(self.environment.groups()),
            Call::Read(place) => Answer::Is(self.environment.quantity(&self.frozen, place)),
            Call::Category(byte) => Answer::Has(self.environment.cats().of(byte)),
        }
    }
}

#[test]
fn count_register(rt: HostRuntime) -> Result<(), Fail> {
    let mut session = Session::new(rt.alloc())?;
    for (call, want) in [
        (Call::Begin(GroupKind::Simple), Answer::Done(true)),
        (Call::Begin(GroupKind::Semi), Answer::Done(true)),
        (Call::Set(COUNT, 7, false), Answer::Done(true)),
        (Call::Read(COUNT), Answer::Is(Quant::Int(7))),
        (Call::End, Answer::Ended(Some(GroupKind::Semi))),
        (Call::Read(COUNT), Answer::Is(Quant::Int(0))),
        (Call::Set(COUNT, 8, true), Answer::Done(true)),
        (Call::End, Answer::Ended(Some(GroupKind::Simple))),
        (Call::End, Answer::Ended(None)),
        (Call::Read(COUNT), Answer::Is(Quant::Int(8))),
    ] {
        assert_eq!(rt; session.play(call), want);
    }
    Ok(())
}

#[test]
fn category(rt: HostRuntime) -> Result<(), Fail> {
    let mut session = Session::new(rt.alloc())?;
    for (call, want) in [
        (Call::Set(AT, 12, false), Answer::Done(true)),
        (Call::Begin(GroupKind::Simple), Answer::Done(true)),
        (Call::Begin(GroupKind::Simple), Answer::Done(true)),
        (Call::Set(AT, 11, false), Answer::Done(true)),
        (Call::Category(b'@'), Answer::Has(Cat::Letter)),
        (Call::Read(AT), Answer::Is(Quant::Int(11))),
        (Call::End, Answer::Ended(Some(GroupKind::Simple))),
        (Call::Category(b'@'), Answer::Has(Cat::Other)),
        (Call::Read(AT), Answer::Is(Quant::Int(12))),
        (Call::Set(AT, 13, true), Answer::Done(true)),
        (Call::End, Answer::Ended(Some(GroupKind::Simple))),
        (Call::Category(b'@'), Answer::Has(Cat::Active)),
    ] {
        assert_eq!(rt; session.play(call), want);
    }
    Ok(())
}

#[test]
fn given_back(rt: HostRuntime) -> Result<(), Fail> {
    let mut session = Session::new(rt.alloc())?;
    for (call, want) in [
        (Call::Set(AT, 11, false), Answer::Done(true)),
        (Call::Set(COUNT, 3, false), Answer::Done(true)),
        (Call::Keep, Answer::Done(true)),
        (Call::Begin(GroupKind::Simple), Answer::Done(true)),
        (Call::Set(AT, 13, true), Answer::Done(true)),
        (Call::Set(COUNT, 4, false), Answer::Done(true)),
        (Call::Keep, Answer::Done(false)),
        (Call::Fail, Answer::Done(true)),
        (Call::Groups, Answer::Count(0)),
        (Call::Category(b'@'), Answer::Has(Cat::Letter)),
        (Call::Read(AT), Answer::Is(Quant::Int(11))),
        (Call::Read(COUNT), Answer::Is(Quant::Int(3))),
    ] {
        assert_eq!(rt; session.play(call), want);
    }
    Ok(())
}

#[test]
fn meanings_read(rt: HostRuntime) -> Result<(), Fail> {
    let mut session = Session::new(rt.alloc())?;
    let escape = Place::Integer(IntegerParameter::EscapeChar);
    let lower = Place::Code(CodeTable::LowerCases, b'A');
    let list = Meaning::List(ListRef::Pooled(4));
    assert!(rt; session.set(EVERY_PAR, list, false));
    assert!(rt; session.set(escape, Meaning::Int(92), false));
    assert!(rt; session.set(lower, Meaning::Int(97), false));
    assert!(rt; session.set(Place::Name(5), Meaning::Char(Cat::Letter, b'a'), false));
    assert!(rt; session.reads());
    Ok(())
}

impl Session {
    /// Whether each kind of reading gives what was set.
    fn reads(&self) -> bool {
        let read = &self.environment;
        let frozen = &self.frozen;
        read.list(frozen, EVERY_PAR) == ListRef::Pooled(4)
            && read.integer(frozen, IntegerParameter::EscapeChar) == 92
            && read.code(frozen, CodeTable::LowerCases, b'A') == 97
            && read.sense(frozen, Tok::Name(5)) == Sense::Char(Cat::Letter, b'a')
            && read.sense(frozen, Tok::Active(b'~')) == Sense::Undefined
    }
}

#[test]
fn math_glue(rt: HostRuntime) -> Result<(), Fail> {
    let mut session = Session::new(rt.alloc())?;
    let muskip = Place::Register(RegKind::Muskip, 2);
    assert!(rt; session.set(muskip, Meaning::Glue(GlueSpec::ZERO), false));
    let want = Answer::Is(Quant::Mu(GlueSpec::ZERO));
    assert_eq!(rt; session.play(Call::Read(muskip)), want);
    Ok(())
}

#[test]
fn tokens_after(rt: HostRuntime) -> Result<(), Fail> {
    let frozen = nothing(rt.alloc())?;
    let mut environment = Environment::new(rt.alloc(), &frozen);
    assert!(rt; environment.after(Tok::Active(b'~')).is_ok());
    assert_eq!(rt; environment.group(), None);
    assert!(rt; environment.begin(GroupKind::Semi).is_ok());
    assert!(rt; environment.after(Tok::Active(b'!')).is_ok());
    assert_eq!(rt; environment.group(), Some(GroupKind::Semi));
    assert!(rt; leaves(&mut environment, Tok::Active(b'!')));
    Ok(())
}

/// Whether a group leaves this token alone where it is given up.
fn leaves(environment: &mut Environment, t: Tok) -> bool {
    match environment.abandon() {
        Some(Closed::End(_, after)) => after.as_slice() == [t].as_slice(),
        _ => false,
    }
}

#[test]
fn emptied(rt: HostRuntime) -> Result<(), Fail> {
    let mut session = Session::new(rt.alloc())?;
    assert!(rt; session.set(COUNT, Meaning::Int(7), false));
    let Session {
        frozen,
        mut environment,
    } = session;
    keep_all(&mut environment);
    assert!(rt; environment.empty().is_some());
    assert!(rt; environment.empty().is_none());
    let over = environment.into_overlay();
    assert_eq!(rt; Sense::of(over.get(&frozen, COUNT.addr())), Sense::Int(0));
    Ok(())
}
