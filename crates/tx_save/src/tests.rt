//! Tests.

ghost use Rattle.std.specs.Prelude.{ℕ};
ghost use Rattle.tx_eqtb.specs.Tables.{Table};
ghost use Rattle.tx_save.specs.Saves.{Fits};

use crate::{Closed, GroupKind, SaveRefused, SaveStack};
use std::alloc::{AllocError, Global};
use std::marker::Model;
use std::test::Fail;
use tx_eqtb::{Addr, AddrKind, Entries, Frozen, Meaning, Overlay};
use tx_tok::Tok;

/// A call of a script.
#[derive(Clone, Copy)]
enum Call {
    /// A group begins.
    Begin,
    /// A count register is set in the innermost group.
    Local(u64, i32),
    /// A count register is set at all levels.
    Global(u64, i32),
    /// A step of the end of the innermost group.
    Close,
    /// The region is undone, and all groups are given up.
    Fail,
    /// What is a count register now?
    Read(u64),
}

/// What a call answers.
#[derive(Clone, Copy, Debug, PartialEq)]
enum Answer {
    /// A group was begun.
    Begun,
    /// It was refused.
    Refused(SaveRefused),
    /// An integer was handed out or read, or none was.
    Out(Option<i32>),
    /// A group has ended.
    End(GroupKind),
    /// No group is open.
    Outermost,
}

/// A session's meanings with its groups, where all that is saved can be put back.
#[derive(Drop)]
struct Session {
    over: Overlay<u8>,
    groups: SaveStack<u8>,
}

impl Model for Session {
    ghost use Rattle.std.specs.Prelude.{ℕ};
    ghost use Rattle.tx_eqtb.specs.Tables.{Table};
    ghost use Rattle.tx_save.specs.Saves.{Saves, Fits};

    ghost Value = { Table ℕ × Saves ℕ };

    ghost view = { λ s. (s.over, s.groups) };

    ghost invariant = { λ s. Fits s.over s.groups };
}

/// A count register.
fn count(no: u64) -> Addr {
    Addr {
        kind: AddrKind::Count,
        no,
    }
}

impl Session {
    /// Nothing is set, and no group is open.
    fn new(alloc: Global) -> Self {
        Session {
            over: Overlay::new(alloc),
            groups: SaveStack::new(alloc),
        }
    }

    /// Begins a group.
    fn begin(&mut self) -> Answer {
        match self.groups.begin(GroupKind::Simple) {
            Ok(()) => Answer::Begun,
            Err(refused) => Answer::Refused(refused),
        }
    }

    /// Sets a count register.
    fn set(&mut self, no: u64, n: i32, global: bool) -> Answer {
        match self
            .groups
            .assign(&mut self.over, count(no), Meaning::Int(n), global)
        {
            Ok(Some(out)) => Answer::Out(integer(&out)),
            Ok(None) => Answer::Out(None),
            Err(_) => Answer::Refused(SaveRefused::Memory),
        }
    }

    /// A step of the end of the innermost group, if one is open.
    fn close(&mut self) -> Answer {
        if self.groups.level() == 1 {
            return Answer::Outermost;
        }
        let step = self.groups.close(&mut self.over);
        told(&step)
    }

    /// Undoes the region and gives all groups up.
    fn fail(&mut self) -> Answer {
        undo_all(&mut self.over);
        abandon_all(&mut self.groups);
        Answer::Outermost
    }

    /// Plays a call.
    fn play(&mut self, frozen: &Frozen<u8>, call: Call) -> Answer {
        match call {
            Call::Begin => self.begin(),
            Call::Local(no, n) => self.set(no, n, false),
            Call::Global(no, n) => self.set(no, n, true),
            Call::Close => self.close(),
            Call::Fail => self.fail(),
            Call::Read(no) => Answer::Out(integer(self.over.get(frozen, count(no)))),
        }
    }
}

/// The integer that an address means.
fn integer(m: &Meaning<u8>) -> Option<i32> {
    match m {
        Meaning::Int(n) => Some(*n),
        _ => None,
    }
}

/// What a step of a group's end tells.
fn told(step: &Closed<u8>) -> Answer {
    match step {
        Closed::Dropped(Some(m)) => Answer::Out(integer(m)),
        Closed::Dropped(None) => Answer::Out(None),
        Closed::End(kind, _) => Answer::End(*kind),
    }
}

/// Undoes all.
fn undo_all(over: &mut Overlay<u8>) {
    while let Some(_) = over.undo() {}
}

/// Gives all groups up.
fn abandon_all(groups: &mut SaveStack<u8>)
    ensures { (table : Table ℕ) → Fits table groups.new }
{
    while let Some(_) = groups.abandon() {}
}

/// A frozen table with 7 in count register 1.
fn frozen(alloc: Global) -> Result<Frozen<u8>, AllocError> {
    let mut entries = Vec::new(alloc);
    entries.push((count(1), Meaning::Int(7)))?;
    Frozen::new(alloc, Entries(entries))
}

#[test]
fn local_and_global(rt: HostRuntime) -> Result<(), Fail> {
    let table = frozen(rt.alloc())?;
    let mut session = Session::new(rt.alloc());
    for (call, want) in [
        (Call::Local(1, 8), Answer::Out(None)),
        (Call::Begin, Answer::Begun),
        (Call::Local(1, 9), Answer::Out(None)),
        (Call::Local(1, 10), Answer::Out(Some(9))),
        (Call::Global(2, 5), Answer::Out(None)),
        (Call::Read(1), Answer::Out(Some(10))),
        (Call::Close, Answer::Out(Some(10))),
        (Call::Close, Answer::End(GroupKind::Simple)),
        (Call::Close, Answer::Outermost),
        (Call::Read(1), Answer::Out(Some(8))),
        (Call::Read(2), Answer::Out(Some(5))),
    ] {
        assert_eq!(rt; session.play(&table, call), want);
    }
    Ok(())
}

#[test]
fn global_after_local(rt: HostRuntime) -> Result<(), Fail> {
    let table = frozen(rt.alloc())?;
    let mut session = Session::new(rt.alloc());
    for (call, want) in [
        (Call::Begin, Answer::Begun),
        (Call::Local(1, 2), Answer::Out(None)),
        (Call::Begin, Answer::Begun),
        (Call::Local(1, 3), Answer::Out(None)),
        (Call::Global(1, 4), Answer::Out(Some(3))),
        (Call::Close, Answer::Out(Some(2))),
        (Call::Close, Answer::End(GroupKind::Simple)),
        (Call::Read(1), Answer::Out(Some(4))),
        (Call::Close, Answer::Out(None)),
        (Call::Close, Answer::End(GroupKind::Simple)),
        (Call::Read(1), Answer::Out(Some(4))),
    ] {
        assert_eq!(rt; session.play(&table, call), want);
    }
    Ok(())
}

#[test]
fn failed_within_groups(rt: HostRuntime) -> Result<(), Fail> {
    let table = frozen(rt.alloc())?;
    let mut session = Session::new(rt.alloc());
    for (call, want) in [
        (Call::Begin, Answer::Begun),
        (Call::Local(1, 8), Answer::Out(None)),
        (Call::Begin, Answer::Begun),
        (Call::Local(1, 9), Answer::Out(None)),
        (Call::Fail, Answer::Outermost),
        (Call::Close, Answer::Outermost),
        (Call::Read(1), Answer::Out(Some(7))),
        (Call::Begin, Answer::Begun),
        (Call::Local(1, 6), Answer::Out(None)),
        (Call::Close, Answer::Out(Some(6))),
        (Call::Close, Answer::End(GroupKind::Simple)),
        (Call::Read(1), Answer::Out(Some(7))),
    ] {
        assert_eq!(rt; session.play(&table, call), want);
    }
    Ok(())
}

#[test]
fn full(rt: HostRuntime) {
    let mut groups: SaveStack<u8> = SaveStack::new(rt.alloc());
    for _ in 0..254 {
        assert!(rt; groups.begin(GroupKind::Simple).is_ok());
    }
    assert_eq!(rt; groups.level(), 255);
    assert_eq!(rt;
        groups.begin(GroupKind::Simple),
        Err(SaveRefused::GroupsFull)
    );
    for _ in 0..254 {
        assert_eq!(rt; given_up(&mut groups), Answer::End(GroupKind::Simple));
    }
    assert_eq!(rt; given_up(&mut groups), Answer::Outermost);
    assert_eq!(rt; groups.level(), 1);
}

/// What a step of giving groups up tells.
fn given_up(groups: &mut SaveStack<u8>) -> Answer {
    match groups.abandon() {
        Some(step) => told(&step),
        None => Answer::Outermost,
    }
}

#[test]
fn tokens_after(rt: HostRuntime) -> Result<(), Fail> {
    let mut over: Overlay<u8> = Overlay::new(rt.alloc());
    let mut groups = SaveStack::new(rt.alloc());
    groups.begin(GroupKind::Semi).map_err(|_| "memory")?;
    groups.after(Tok::Active(b'~'))?;
    assert_eq!(rt; groups.level(), 2);
    let step = groups.close(&mut over);
    assert!(rt; leaves(&step, GroupKind::Semi, Tok::Active(b'~')));
    Ok(())
}

/// Whether a group of this kind has ended that left this token.
fn leaves(step: &Closed<u8>, kind: GroupKind, t: Tok) -> bool {
    match step {
        Closed::Dropped(_) => false,
        Closed::End(ended, after) => *ended == kind && after.0.as_slice() == [t].as_slice(),
    }
}
