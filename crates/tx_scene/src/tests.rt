//! Scenes of small texts.

ghost use Rattle.tx_eqtb.specs.Meanings.{meanings};

use crate::Scene;
use std::alloc::{AllocError, Global};
use std::marker::Model;
use std::test::Fail;
use tx_assign::{Prefixes, Refused};
use tx_bytes::Bytes;
use tx_eqtb::{Entries, Frozen, Meaning, RegKind};
use tx_input::Taken;
use tx_node::BoxNode;
use tx_num::{ErrorNo, Quant};
use tx_prims::primitives::{IntegerParameter, ListParameter};
use tx_save::{Closed, GroupKind};
use tx_scan::Cats;
use tx_tok::{Cat, ListRef, Tok, Toks};
use tx_views::{CodeTable, Place, Sense};

/// How many names the format of the tests has.
const FORMAT_NAMES: u64 = 10;

/// The category of `@`.
const AT: Place = Place::Code(CodeTable::Categories, b'@');

/// The first count register.
const COUNT: Place = Place::Register(RegKind::Count, 1);

/// What begins each paragraph.
const EVERY_PAR: Place = Place::List(ListParameter::EveryPar);

/// `\globaldefs`.
const GLOBAL_DEFS: Place = Place::Integer(IntegerParameter::GlobalDefs);

/// The error of a control sequence that means nothing.
const UNDEFINED: ErrorNo = ErrorNo {
    no: 1,
    case: 0,
    value: 0,
};

/// What the log of the tests has in the end.
const LINES: &[u8] =
    b"hi\n! Undefined control sequence.\nl.1\n! Invalid code (-25), should be in the range 0..127.\nl.1\n";

/// A scene over a frozen table without entries.
#[derive(Drop)]
struct Stage {
    frozen: Frozen<BoxNode>,
    scene: Scene,
}

impl Model for Stage {
    ghost use Rattle.tx_eqtb.specs.Meanings.{meanings};
    ghost use Rattle.tx_environment.specs.Soundness.{IsSound};
    ghost use Rattle.tx_scene.specs.declared.scene.Scene.{Scene};

    ghost Value = { Scene };

    ghost view = { λ s. s.scene };

    ghost invariant = { λ s. IsSound (meanings s.frozen) s.scene.environment };
}

/// A table without entries.
fn nothing(alloc: Global) -> Result<Frozen<BoxNode>, AllocError> {
    Frozen::new(alloc, Entries(Vec::new(alloc)))
}

/// A list of one token.
fn one(alloc: Global, token: Tok) -> Result<Toks, AllocError> {
    Ok(Toks(vec![in alloc; token]?))
}

impl Stage {
    /// Nothing is set, and this text is pending.
    fn new(alloc: Global, text: &[u8]) -> Result<Self, AllocError> {
        let frozen = nothing(alloc)?;
        let mut scene = Scene::new(alloc, &frozen, FORMAT_NAMES, false);
        scene.begin(Bytes::from_slice(alloc, text)?, 100);
        Ok(Stage { frozen, scene })
    }

    /// Gives a place a meaning in the innermost group.
    fn set(&mut self, place: Place, meaning: Meaning<BoxNode>) -> bool {
        self.scene.assign(place, meaning, false).is_ok()
    }

    /// Takes the next token.
    fn take(&mut self) -> Taken {
        self.scene.take(&self.frozen)
    }

    /// Whether the next token is this one.
    fn takes(&mut self, token: Tok) -> bool {
        self.take() == Taken::Token(token)
    }

    /// Begins a group.
    fn begin(&mut self) -> bool {
        self.scene.begin_group(GroupKind::Semi).is_ok()
    }

    /// Leaves a token for the end of the innermost group.
    fn after(&mut self, token: Tok) -> bool {
        self.scene.after_group(token).is_ok()
    }

    /// Ends the innermost group, and puts what it leaves in front.
    fn end(self) -> Result<Self, Fail> {
        let Stage { frozen, mut scene } = self;
        for _ in 0..10 {
            if scene.groups() == 0 {
                return Err(Fail::new("a group is open"));
            }
            match scene.close() {
                Closed::Dropped(_) => {}
                Closed::End(_, after) => {
                    scene.put(after)?;
                    return Ok(Stage { frozen, scene });
                }
            }
        }
        Err(Fail::new("the group ends"))
    }
}

impl Stage {
    /// Whether a group's categories are those set in it.
    fn in_group(&mut self) -> bool {
        self.set(AT, Meaning::Int(12))
            && self.takes(Tok::Char(Cat::Other, b'@'))
            && self.begin()
            && self.set(AT, Meaning::Int(11))
            && self.takes(Tok::Char(Cat::Letter, b'@'))
            && self.after(Tok::Active(b'~'))
    }

    /// Whether those from before it are back behind it.
    fn behind_group(&mut self) -> bool {
        self.takes(Tok::Active(b'~'))
            && self.takes(Tok::Char(Cat::Other, b'@'))
            && self.set(AT, Meaning::Int(0))
            && self.take() == Taken::Name
    }

    /// Gives places meanings.
    fn set_all(&mut self) -> bool {
        self.set(COUNT, Meaning::Int(7))
            && self.set(EVERY_PAR, Meaning::List(ListRef::Pooled(4)))
            && self.set(Place::Name(5), Meaning::Char(Cat::Letter, b'a'))
            && self.set(GLOBAL_DEFS, Meaning::Int(1))
    }

    /// Whether an assignment without prefixes is global.
    fn defines_globally(&self) -> bool {
        self.scene.is_global(&self.frozen, Prefixes::NONE)
    }

    /// Whether each kind of reading gives what was set.
    fn reads(&self) -> bool {
        let read = &self.scene;
        let frozen = &self.frozen;
        read.integer(frozen, IntegerParameter::GlobalDefs) == 1
            && read.quantity(frozen, COUNT) == Quant::Int(7)
            && read.list(frozen, EVERY_PAR) == ListRef::Pooled(4)
            && read.sense(frozen, Tok::Name(5)) == Sense::Char(Cat::Letter, b'a')
            && read.sense(frozen, Tok::Active(b'~')) == Sense::Undefined
    }

    /// Whether a token in lower case is the other one.
    fn lowers(&self, alloc: Global, token: Tok, want: Tok) -> Result<bool, AllocError> {
        let tokens = one(alloc, token)?;
        let lower = self
            .scene
            .recoded(&self.frozen, CodeTable::LowerCases, &tokens)?;
        Ok(lower.as_slice() == [want].as_slice())
    }
}

/// Whether a group's end brings categories and tokens back.
fn categories_back(alloc: Global) -> Result<bool, Fail> {
    let mut stage = Stage::new(alloc, b"@@@@")?;
    let inside = stage.in_group();
    let mut ended = stage.end()?;
    Ok(inside && ended.behind_group())
}

#[test]
fn categories(rt: HostRuntime) -> Result<(), Fail> {
    let holds = categories_back(rt.alloc())?;
    assert!(rt; holds);
    Ok(())
}

/// Whether what is set is what is read.
fn read_back(alloc: Global) -> Result<bool, AllocError> {
    let mut stage = Stage::new(alloc, b"")?;
    let local = !stage.defines_globally();
    let set = stage.set_all();
    Ok(local && set && stage.reads() && stage.defines_globally())
}

#[test]
fn meanings_read(rt: HostRuntime) -> Result<(), Fail> {
    let holds = read_back(rt.alloc())?;
    assert!(rt; holds);
    Ok(())
}

/// Whether a token in lower case is the other one, where the code of `A` is 97.
fn lowered(alloc: Global, token: Tok, want: Tok) -> Result<bool, AllocError> {
    let mut stage = Stage::new(alloc, b"")?;
    let set = stage.set(Place::Code(CodeTable::LowerCases, b'A'), Meaning::Int(97));
    let lowers = stage.lowers(alloc, token, want)?;
    Ok(set && lowers)
}

#[test]
fn letters_by_codes(rt: HostRuntime) -> Result<(), Fail> {
    for (token, want) in [
        (Tok::Char(Cat::Other, b'A'), Tok::Char(Cat::Other, b'a')),
        (Tok::Active(b'A'), Tok::Active(b'a')),
        (Tok::Char(Cat::Letter, b'b'), Tok::Char(Cat::Letter, b'b')),
        (Tok::Name(65), Tok::Name(65)),
    ] {
        let holds = lowered(rt.alloc(), token, want)?;
        assert!(rt; holds);
    }
    Ok(())
}

/// Whether a group that has begun is the innermost one.
fn begins(scene: &mut Scene) -> bool {
    scene.group().is_none()
        && scene.begin_group(GroupKind::Simple).is_ok()
        && scene.group() == Some(GroupKind::Simple)
        && scene.groups() == 1
}

/// Takes the next token by the categories of plain TeX's beginning.
fn next(scene: &mut Scene) -> Taken {
    scene.input.take(&Cats::bare(), 13)
}

/// Whether the token that is kept comes once, behind what is put in front later, and before the rest.
fn keeps(scene: &mut Scene, front: Toks) -> Result<bool, AllocError> {
    scene.keep(Tok::Active(b'~'));
    scene.release_kept()?;
    scene.release_kept()?;
    scene.put(front)?;
    let room = !scene.is_overfull();
    let first = next(scene);
    let second = next(scene);
    scene.drop_rest();
    Ok(
        room && first == Taken::Token(Tok::Name(3))
            && second == Taken::Token(Tok::Active(b'~'))
            && next(scene) == Taken::End,
    )
}

/// Whether one token more can be stored.
fn stores(scene: &mut Scene, stored: u64, preamble: bool, tokens: &Toks) -> bool {
    scene.stored = stored;
    scene.preamble = preamble;
    scene.store(tokens)
}

/// Whether the lines in the log are these.
fn tells(scene: &mut Scene, frozen: &Frozen<BoxNode>) -> Result<bool, AllocError> {
    let name = next(scene);
    scene.tell(frozen, b"hi")?;
    scene.fail(frozen, UNDEFINED, b"")?;
    let number = ErrorNo {
        no: 18,
        case: 0,
        value: -25,
    };
    let limit = Some(127);
    scene.refuse(frozen, Refused { number, limit })?;
    Ok(name == Taken::Name && scene.log.as_slice() == LINES)
}

/// Whether a group begins.
fn begun(alloc: Global) -> Result<bool, AllocError> {
    let Stage { mut scene, .. } = Stage::new(alloc, b"")?;
    Ok(begins(&mut scene))
}

#[test]
fn groups(rt: HostRuntime) -> Result<(), Fail> {
    let holds = begun(rt.alloc())?;
    assert!(rt; holds);
    Ok(())
}

/// Whether lines are told.
fn told(alloc: Global) -> Result<bool, AllocError> {
    let Stage { frozen, mut scene } = Stage::new(alloc, b"\\a")?;
    tells(&mut scene, &frozen)
}

#[test]
fn lines(rt: HostRuntime) -> Result<(), Fail> {
    let holds = told(rt.alloc())?;
    assert!(rt; holds);
    Ok(())
}

/// Whether a token is kept.
fn kept(alloc: Global) -> Result<bool, AllocError> {
    let front = one(alloc, Tok::Name(3))?;
    let Stage { mut scene, .. } = Stage::new(alloc, b"a")?;
    keeps(&mut scene, front)
}

#[test]
fn token_kept(rt: HostRuntime) -> Result<(), Fail> {
    let holds = kept(rt.alloc())?;
    assert!(rt; holds);
    Ok(())
}

/// Whether one token more can be stored where so many are, by a preamble or not.
fn stored(alloc: Global, stored: u64, preamble: bool) -> Result<bool, AllocError> {
    let Stage { mut scene, .. } = Stage::new(alloc, b"")?;
    let tokens = one(alloc, Tok::Stop)?;
    Ok(stores(&mut scene, stored, preamble, &tokens))
}

#[test]
fn lists_stored(rt: HostRuntime) -> Result<(), Fail> {
    for (count, preamble, want) in [
        (1_048_575, false, true),
        (1_048_576, false, false),
        (1_048_576, true, true),
        (4_194_304, true, false),
    ] {
        let holds = stored(rt.alloc(), count, preamble)?;
        assert_eq!(rt; holds, want);
    }
    Ok(())
}
