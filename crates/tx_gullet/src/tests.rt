//! Tests of what the engine keeps between regions.

use crate::engine::Engine;
use crate::equivalents::Equivalents;
use crate::format::bare;
use crate::meaning::Meaning;
use std::test::Fail;
use tx_model::{Cat, Primitive};
use tx_scan::Cats;
use tx_tok::Tok;

#[test]
fn definitions_undone(rt: HostRuntime) -> Result<(), Fail> {
    let mut equivalents = Equivalents::new(rt.alloc(), Cats::bare());
    equivalents.define(3, Meaning::Primitive(Primitive::Relax))?;
    equivalents.keep();
    equivalents.define(3, Meaning::Primitive(Primitive::Par))?;
    equivalents.begin_group()?;
    equivalents.define(3, Meaning::Character(Cat::Letter, b'x'))?;
    equivalents.define(4, Meaning::Primitive(Primitive::Def))?;
    equivalents.undo();
    let third = equivalents.meaning_of(Tok::Name(3))?;
    assert!(rt; matches!(third, Meaning::Primitive(Primitive::Relax)));
    let fourth = equivalents.meaning_of(Tok::Name(4))?;
    assert!(rt; matches!(fourth, Meaning::Undefined));
    assert!(rt; equivalents.open_groups() == 0);
    Ok(())
}

#[test]
fn outermost_level_kept(rt: HostRuntime) -> Result<(), Fail> {
    let mut equivalents = Equivalents::new(rt.alloc(), Cats::bare());
    equivalents.define(3, Meaning::Primitive(Primitive::Relax))?;
    equivalents.begin_group()?;
    equivalents.define(3, Meaning::Primitive(Primitive::Par))?;
    assert!(rt; equivalents.open_groups() == 1);
    equivalents.keep();
    assert!(rt; equivalents.open_groups() == 0);
    let third = equivalents.meaning_of(Tok::Name(3))?;
    assert!(rt; matches!(third, Meaning::Primitive(Primitive::Relax)));
    Ok(())
}

#[test]
fn frozen_again(rt: HostRuntime) -> Result<(), Fail> {
    let format = bare(rt.alloc())?;
    let engine = Engine::new(rt.alloc(), &format)?;
    let (names, equivalents) = engine.freeze().state()?;
    assert!(rt; names.len() == 4);
    let number = names.find(b"par").ok_or("absent")?;
    let meaning = equivalents.meaning_of(Tok::Name(number))?;
    assert!(rt; matches!(meaning, Meaning::Primitive(Primitive::Par)));
    Ok(())
}
