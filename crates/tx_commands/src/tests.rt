//! Commands item by item, with the outcomes that TeX has.

use crate::{
    After, Arithmetic, Assign, Command, DefineStage, Effect, Item, Letters, Message, Named, Naming,
    Outcome, Stage, Standing, feed, start,
};
use std::test::Fail;
use tx_assign::{Operation, Prefixes};
use tx_eqtb::{Meaning, RegKind};
use tx_frames::{Reading, TextKind, Value, Wish};
use tx_num::Quant;
use tx_prims::primitives::{Assignment, Command as Primitive, Primitive as AnyPrimitive};
use tx_save::GroupKind;
use tx_tok::{Cat, ListRef, Tok, Toks};
use tx_views::{Place, Sense};

/// No prefixes.
const NONE: Prefixes = Prefixes {
    global: false,
    long: false,
    protected: false,
};

/// The meaning of a primitive of the family of assignments.
fn assignment(assignment: Assignment) -> Sense {
    Sense::Primitive(AnyPrimitive::Assignment(assignment))
}

/// The meaning of a primitive of the family of commands.
fn command(command: Primitive) -> Sense {
    Sense::Primitive(AnyPrimitive::Command(command))
}

/// What a command goes on with.
fn goes(outcome: &Outcome) -> Option<Command> {
    match outcome {
        Outcome::Goes(command) => Some(*command),
        _ => None,
    }
}

/// The number of an error.
fn error(outcome: &Outcome) -> Option<u8> {
    match outcome {
        Outcome::Wrong(refused) => Some(refused.number.no),
        _ => None,
    }
}

#[test]
fn begins(rt: HostRuntime) -> Result<(), Fail> {
    assert_eq!(rt; start(), Command::Start);
    assert_eq!(rt; start().wish(), Wish::Expanded(false));
    let brace = Item::Expanded(Tok::Char(Cat::Begin, b'{'), Sense::Char(Cat::Begin, b'{'));
    let outcome = feed(rt.alloc(), Command::Start, brace);
    assert!(rt;
        matches!(
            &outcome,
            Outcome::Does(Effect::BeginGroup(GroupKind::Simple))
        )
    );
    let outcome = feed(
        rt.alloc(),
        Command::Start,
        Item::Expanded(Tok::Name(1), command(Primitive::HBox)),
    );
    assert_eq!(rt; error(&outcome), Some(63));
    let outcome = feed(
        rt.alloc(),
        Command::Start,
        Item::Expanded(Tok::Name(1), command(Primitive::AfterGroup)),
    );
    assert_eq!(rt; goes(&outcome), Some(Command::After(After::Group)));
    let outcome = feed(rt.alloc(), Command::Start, Item::TextEnd);
    assert!(rt; matches!(&outcome, Outcome::Does(Effect::Finish)));
    Ok(())
}

#[test]
fn prefixes(rt: HostRuntime) -> Result<(), Fail> {
    let outcome = feed(
        rt.alloc(),
        Command::Start,
        Item::Expanded(Tok::Name(1), assignment(Assignment::Long)),
    );
    let long = Prefixes {
        global: false,
        long: true,
        protected: false,
    };
    assert_eq!(rt; goes(&outcome), Some(Command::Prefixed(long)));
    let outcome = feed(
        rt.alloc(),
        Command::Prefixed(long),
        Item::Expanded(Tok::Name(1), assignment(Assignment::XDef)),
    );
    let global = Prefixes {
        global: true,
        long: true,
        protected: false,
    };
    assert_eq!(rt;
        goes(&outcome),
        Some(Command::Name(global, Naming::Define(true)))
    );
    let outcome = feed(
        rt.alloc(),
        Command::Prefixed(long),
        Item::Expanded(Tok::Name(1), assignment(Assignment::Count)),
    );
    assert!(rt; matches!(&outcome, Outcome::Does(Effect::BadPrefix(_))));
    Ok(())
}

#[test]
fn character_names(rt: HostRuntime) -> Result<(), Fail> {
    let standing = Standing::Character;
    let named = Command::Name(NONE, Naming::Stand(standing));
    let outcome = feed(
        rt.alloc(),
        named,
        Item::Token(Tok::Name(7), Sense::Undefined),
    );
    assert!(rt; matches!(&outcome, Outcome::Relaxes(_, _, Place::Name(7))));
    let number = Command::Named(NONE, Place::Name(7), Named::Stand(standing, Stage::Number));
    assert_eq!(rt; number.wish(), Wish::Within(Reading::Number));
    let outcome = feed(rt.alloc(), number, Item::Amount(Quant::Int(65)));
    assert!(rt;
        matches!(
            &outcome,
            Outcome::Does(Effect::Assign(_, Place::Name(7), Meaning::Code(false, 65)))
        )
    );
    let outcome = feed(rt.alloc(), number, Item::Amount(Quant::Int(256)));
    assert_eq!(rt; error(&outcome), Some(16));
    Ok(())
}

#[test]
fn registers(rt: HostRuntime) -> Result<(), Fail> {
    let outcome = feed(
        rt.alloc(),
        Command::Assign(NONE, Assign::Register(RegKind::Toks)),
        Item::Amount(Quant::Int(3)),
    );
    let place = Place::Register(RegKind::Toks, 3);
    assert_eq!(rt;
        goes(&outcome),
        Some(Command::Assign(NONE, Assign::Equals(place)))
    );
    let outcome = feed(
        rt.alloc(),
        Command::Assign(NONE, Assign::Equals(place)),
        Item::Nothing,
    );
    let value = Command::Assign(NONE, Assign::Value(place, Reading::List));
    assert_eq!(rt; goes(&outcome), Some(value));
    let outcome = feed(rt.alloc(), value, Item::List(ListRef::Empty));
    assert!(rt;
        matches!(
            &outcome,
            Outcome::Does(Effect::Assign(_, _, Meaning::List(_)))
        )
    );
    let outcome = feed(
        rt.alloc(),
        Command::Arithmetic(NONE, Operation::Advance, Arithmetic::Target),
        Item::Expanded(Tok::Name(1), assignment(Assignment::Toks)),
    );
    assert!(rt; matches!(&outcome, Outcome::Does(Effect::NoTarget(_))));
    Ok(())
}

#[test]
fn items(rt: HostRuntime) -> Result<(), Fail> {
    let amount = Item::of_value(Value::Amount(Quant::Int(3)));
    assert!(rt; matches!(&amount, Item::Amount(Quant::Int(3))));
    let brace = Item::of(tx_frames::Item::Given(Value::Nothing));
    assert!(rt; matches!(&brace, Item::Nothing));
    Ok(())
}

#[test]
fn texts(rt: HostRuntime) -> Result<(), Fail> {
    let outcome = feed(
        rt.alloc(),
        Command::Message(Message::Log, false),
        Item::Nothing,
    );
    let message = Command::Message(Message::Log, true);
    assert_eq!(rt; goes(&outcome), Some(message));
    assert_eq!(rt;
        message.wish(),
        Wish::Within(Reading::Text(TextKind::Expanded))
    );
    let outcome = feed(
        rt.alloc(),
        Command::ChangeCase(Letters::Upper, true),
        Item::Tokens(Toks::new(rt.alloc())),
    );
    assert!(rt;
        matches!(
            &outcome,
            Outcome::Does(Effect::ChangeCase(Letters::Upper, _))
        )
    );
    let stage = Named::Define(false, DefineStage::Brace);
    let outcome = feed(
        rt.alloc(),
        Command::Named(NONE, Place::Name(7), stage),
        Item::Token(
            Tok::Char(Cat::Parameter, b'#'),
            Sense::Char(Cat::Parameter, b'#'),
        ),
    );
    assert_eq!(rt; error(&outcome), Some(63));
    let outcome = feed(
        rt.alloc(),
        Command::IgnoreSpaces,
        Item::Expanded(Tok::Char(Cat::Letter, b'a'), Sense::Char(Cat::Letter, b'a')),
    );
    assert!(rt; matches!(&outcome, Outcome::Again(back) if back.len() == 1));
    Ok(())
}
